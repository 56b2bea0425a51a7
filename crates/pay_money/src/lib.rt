//! Amounts of money, in pence: their sums and differences, and how they are divided into parts and shares.
#![tactic(auto)]

pub mod laws;
pub mod limits;
mod pence;
mod shares;

pub use pence::Pence;
pub use shares::{apportion, part};
