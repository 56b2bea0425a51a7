//! The job `serve` of the program, by its fare file, its zone and its journals, over the ledger that was opened for it: the second step of a
//! service, after [`begin_service`](pay_jobs::begin_service). [`stay`] is that of a service that stays.
#![tactic(auto)]

mod fault;
mod service;
mod staying;

pub use pay_peers::Aside;
pub use pay_serve::{Given, Plan};
pub use service::{serve, serve_without_ledger, take_given};
pub use staying::{Staying, stay};
