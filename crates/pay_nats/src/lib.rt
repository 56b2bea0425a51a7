//! The bytes between a client and a NATS server: [`write_request`] writes what a client asks, and [`read_frame`] reads what the server
//! sends. There is no socket in it, and reading takes no memory.
//! `laws` says what holds of the bytes themselves, and `limits` how long they may be.
#![tactic(auto)]

mod ack;
mod frame;
mod headers;
pub mod laws;
pub mod limits;
mod line;
mod meaning;
mod parts;
mod reading;
mod request;
mod sizes;
mod subject;

pub use ack::{Ack, ack_of};
pub use frame::{Frame, FrameFault, Message};
pub use headers::{Field, status_of, value_of, write_headers};
pub use reading::read_frame;
pub use request::{Publication, Request, write_request};
pub use subject::is_subject;
