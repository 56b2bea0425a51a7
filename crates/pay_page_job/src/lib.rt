//! The job `page`: pages of customer service at a port of this machine, by journals that may grow meanwhile. Each journal is read on from
//! where it was read to, and a page is made of its account's own lines, so nothing else is priced.
//! What was posted is looked up in a ledger, by the thread that reads the journals.
#![tactic(auto)]

mod answering;
mod belonging;
mod clock;
mod control;
mod desk;
mod followed;
mod journals;
mod looking;
mod offers;
mod patient;
mod reading;
mod shown;
mod waiting;
mod what;

pub use answering::{Given, serve_pages};
pub use control::StaffPort;
pub use looking::LooksUp;
