//! Many connections over one lane: [`Ready`] is a place at one port, whose connections are held as long as their peers like, and
//! [`Control`] is one for staff, where days are closed, and who may stop the service or ask what it has done. A lane waits until some
//! have something to read, takes a few pieces of each in turn, answers the lines that end in them, and keeps the rest with the
//! connection. [`Shared`] is what all lanes of a service share, and [`Tally`] what they count together. `limits` says how many connections it holds, and how a lane
//! divides its time.
#![tactic(auto)]

mod aside;
mod day;
mod fate;
mod greeting;
pub mod limits;
mod peer;
mod peers;
mod ports;
mod ready;
mod refused;
mod sending;
mod serving;
mod shared;
mod tally;
mod word;

pub use aside::Aside;
pub use ports::Ports;
pub use ready::{Control, Ready};
pub use shared::Shared;
pub use tally::Tally;
