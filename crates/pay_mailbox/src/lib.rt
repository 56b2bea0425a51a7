//! A mailbox that threads share: many senders, one receiver. What arrives of each sender is what it sent, in its
//! order, whole and once.
#![tactic(auto)]

mod ends;
mod mailbox;
mod rule;
mod senders;

pub use ends::{Inbox, Outbox};
pub use mailbox::{Mailbox, Receiver, Sender};
pub use senders::Senders;
