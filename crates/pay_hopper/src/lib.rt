//! The Hopper rule: a bus tap pays just when no earlier paying bus tap is at most `hopper` seconds
//! before it.
#![tactic(auto)]

mod hopper;
pub mod laws;

pub use hopper::{paying, pays};
