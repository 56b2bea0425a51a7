//! The accounts of an archive, by the rows of their taps and corrections.
#![tactic(auto)]

mod keeping;
pub mod laws;
mod reading;
mod restoring;
mod retaking;

pub use pay_rules::Fares;
pub use pay_tables::Editions;
pub use restoring::restored;
