//! A front, which takes the lines of a client and gives each its reply: at once, or from the [`Partitions`] of a replicated log, to which it
//! hands the line. [`serve_client`] does so with one client's lines. `limits` says how often it reads.
#![tactic(auto)]

mod answering;
mod client_line;
mod closes;
pub mod limits;
mod partition;
mod partitions;
mod route;
mod serving;

pub use answering::Front;
pub use partition::partition_of;
pub use partitions::{Now, Partitions};
pub use route::{Route, route_of};
pub use serving::{Ended, serve_client};
