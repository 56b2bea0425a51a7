//! The job `check`, by the texts of its fare files: how many of each thing a fare file has, and whether it prices the days
//! as an old one does.
#![tactic(auto)]

mod against;
mod counting;
mod fault;
mod output;

pub use against::check_against;
pub use counting::check_text;
pub use fault::CheckFault;
pub use pay_compare::Key;
