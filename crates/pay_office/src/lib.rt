//! The office: the workers of all shards, each in a thread of its own, from [`start`] to [`shut`]; and [`LaneDesk`], a desk over
//! one of its lanes, so that what answers over a desk answers over all shards at once.
#![tactic(auto)]

mod desk;
pub mod limits;
mod office;
mod same_command;
mod waiting;
mod work;

pub use desk::LaneDesk;
pub use office::{Office, ShutFault, StartFault, shut, start};
pub use pay_lanes::{Ended, Gate, Lane, OpenGate};
pub use work::SameWorker;
