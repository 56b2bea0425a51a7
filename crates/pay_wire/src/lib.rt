//! Commands and replies as lines: [`read_command`] says what a line asks for, [`command_line`] spells a command, and [`send`]
//! writes a reply.
//! `laws` says what holds of the lines themselves, and `limits` how long they and their numbers may be.
#![tactic(auto)]

mod command;
mod known_writer;
pub mod laws;
pub mod limits;
mod number;
mod output;
mod refusal;
mod reply;
mod sending;
mod spelling;

pub use command::{
    SpelledCommand, SpelledCredit, SpelledFix, SpelledTap, SpelledWhat, read_command,
};
pub use known_writer::KnownWriter;
pub use output::WriteFault;
pub use refusal::Refusal;
pub use reply::{Closed, SpelledLine, SpelledReply};
pub use sending::{send, send_line};
pub use spelling::command_line;
