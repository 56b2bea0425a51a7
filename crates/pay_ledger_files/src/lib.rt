//! A ledger in the file at a path: [`open_file`] opens one, and makes it where there is none; [`open_existing`] makes none. And one in
//! memory, [`new_ledger`].
#![tactic(auto)]

mod file;
mod log;
mod memory;
mod opening;

pub use file::{open_existing, open_file};
pub use memory::new_ledger;
