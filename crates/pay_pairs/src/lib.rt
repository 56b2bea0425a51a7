//! Legs: which taps of a rail traveller on the way in and out belong together.
#![tactic(auto)]

pub mod laws;
mod parts;

pub use parts::{is_leg, legs};
pub use pay_rules::{Leg, RailPart};
