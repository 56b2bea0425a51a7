//! The partitions of a replicated log come to one machine over all accounts.
#![tactic(auto)]

pub mod laws;
