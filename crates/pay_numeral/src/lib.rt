//! Numbers as the texts of other programs have them.
#![tactic(auto)]

mod numeral;

pub use numeral::number_of;
