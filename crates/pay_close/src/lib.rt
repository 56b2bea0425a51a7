//! The close of a day: [`gather`] asks a desk for the quotes of all accounts, and [`close`] posts them into a ledger; [`count_open`] counts
//! those of which something else was posted.
//! [`LedgerTill`] does so for a session, under the eyes of a [`Watch`]. `laws` says what commands and closes come to.
#![tactic(auto)]

mod asking;
mod fault;
mod gathered;
pub mod laws;
mod ledger_till;
pub mod limits;
mod open_accounts;
mod watch;

pub use fault::NotClosed;
pub use gathered::{Gathered, gather};
pub use ledger_till::{LedgerTill, close};
pub use open_accounts::count_open;
pub use watch::{NoWatch, Watch};
