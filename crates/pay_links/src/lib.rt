//! Journeys by rail: runs of linked legs, legs at one station, and lone taps.
#![tactic(auto)]

pub mod laws;
mod links;
mod starts;

pub use links::journeys;
pub use pay_pairs::legs;
pub use pay_rules::{Journey, Run};
pub use starts::starts_at;
