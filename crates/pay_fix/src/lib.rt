//! Corrections of an account: the set of accepted ones by number, which of them stand, and the effective
//! taps that its taps and its corrections make.
#![tactic(auto)]

mod change;
mod fix_set;
mod given;
pub mod laws;
mod named;
mod standing;
mod touches;

pub use change::{Change, change_by_fix, change_by_tap};
pub use fix_set::FixSet;
pub use given::credits;
pub use named::day_named;
pub use pay_rules::{Credit, Fix, What};
pub use touches::effective;
