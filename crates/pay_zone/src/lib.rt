//! A zone whose changes are found once, so that most instants are stamped without its rules.
#![tactic(auto)]

mod steady;
mod year;
mod zone;

pub use zone::Zone;
