//! What follows from the fare rules for every account: when each refusal comes, what a repeat is given, and that **the charge is the
//! same whatever order taps and corrections arrived in**. Each law is the contract of a function that does nothing: a caller whose
//! proof needs a law calls its function.
#![tactic(auto)]

pub mod accounts;
pub mod sets;
