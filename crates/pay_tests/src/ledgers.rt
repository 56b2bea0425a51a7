//! The tests of ledgers in memory, from what is opened as a ledger to lines over one.

mod archives;
mod faults;
pub mod ledger;
pub mod lines;
mod opening;
mod upgrading;
