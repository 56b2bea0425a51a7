//! Serves sessions at sockets: [`listen`] takes a port for each lane, and [`serve`] answers the connections of each lane in a thread of
//! its own, over an office of several shards, until all have ended. What journals have is taken again before, and what the shards newly
//! accept is kept after it, by a [`KeepingGate`] for each. [`close_day`] then closes a day, and shuts the office. `laws` says what a gate
//! keeps of a shard's journal.
#![tactic(auto)]

mod begins;
mod closing;
mod connection;
mod fault;
mod gate;
mod gates;
mod given;
mod journals;
mod lanes;
pub mod laws;
pub mod limits;
mod listening;
mod place;
mod plan;
mod served_lanes;
mod service;
mod sides;
mod staying;
mod threads;

pub use begins::LaneFault;
pub use closing::{close_day, close_over};
pub use connection::{Connections, serve_connections, serve_lane};
pub use fault::ServeFault;
pub use gate::KeepingGate;
pub use given::Given;
pub use journals::{take_again, take_through};
pub use lanes::{begin_lanes, serve_lanes};
pub use listening::{listen, listen_on};
pub use place::{Place, StaffPlace};
pub use plan::Plan;
pub use served_lanes::ServedLanes;
pub use service::{serve, serve_gated};
pub use staying::stay;
