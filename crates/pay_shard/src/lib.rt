//! A shard of the accounts: commands as plain numbers, the machine that answers them, and the journal of what was asked.
//! [`Shard`] keeps the accounts beside the journal, of which they are the replay. A [`Desk`] takes commands and gives the
//! replies to them, and [`LocalDesk`] does so over one shard. `laws` says what several shards come to, and `limits` how many
//! there may be.
#![tactic(auto)]

mod accounts;
mod answering;
mod asked;
mod batch;
mod block;
mod command;
mod desk;
mod item;
mod journal;
pub mod laws;
pub mod limits;
mod local_desk;
mod memory;
mod past;
mod refusal;
mod reply;
mod selection;
mod shard;
mod ticket;

pub use asked::Asked;
pub use batch::Batch;
pub use command::Command;
pub use desk::{Desk, DeskFault};
pub use item::{Entry, Item};
pub use journal::Journal;
pub use local_desk::LocalDesk;
pub use memory::{KeepsAll, KeepsBlock, Memory};
pub use refusal::ShardRefusal;
pub use reply::{Answer, Reply};
pub use shard::Shard;
pub use ticket::Ticket;
