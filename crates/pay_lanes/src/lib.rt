//! Lanes and the workers of shards, each in a thread of its own. A [`Lane`] sends commands to the shards and takes the
//! answers; a [`Worker`] answers what the lanes send to its shard, one command a turn. [`open`] makes both with the
//! queues between them, and [`end`] takes them back once the threads have returned: what each lane sent then stands in
//! the journals or in what was left.
#![tactic(auto)]

mod ending;
mod gate;
mod lane;
pub mod laws;
pub mod limits;
mod opening;
mod outgoing;
mod senders;
mod sending;
mod worker;

pub use ending::{EndFault, Ended, end, put_in_order};
pub use gate::{Gate, Load, OpenGate};
pub use lane::{Lane, SendFault};
pub use opening::{OpenLanesFault, Opened, open};
pub use outgoing::Outgoing;
pub use senders::{ByLane, ByShard};
pub use worker::{Turn, Worker};
