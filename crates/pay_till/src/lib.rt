//! What closes days: a [`Till`], with what a close asks of a desk and how it may be refused. [`NoTill`] closes nothing.
#![tactic(auto)]

mod till;

pub use till::{NoTill, Till};
