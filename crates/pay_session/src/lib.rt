//! A session of lines: [`session`] answers those of a reader over any desk and any till. Its parts are there for whatever else reads
//! lines: [`cut`], [`request_of`], [`asks_of`], [`reply_of`] and [`answer`]. `laws` says what the cutting of lines means, and `limits` how long a
//! session may last.
#![tactic(auto)]

mod asks;
mod begun_line;
mod conversation;
mod cutting;
mod known_reader;
pub mod laws;
pub mod limits;
mod port;
mod progress;
mod request;
mod service;
mod sessions;
mod stop;

pub use asks::{Asks, asks_of};
pub use conversation::Conversation;
pub use cutting::cut;
pub use known_reader::KnownReader;
pub use port::{Port, Role, asks_at};
pub use request::{Request, request_of};
pub use service::{answer, refusal_of_desk, reply_of, said};
pub use sessions::{Done, session};
pub use stop::SessionFault;
