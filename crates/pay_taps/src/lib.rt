//! Taps of an account: the set of accepted taps by number, the order of effective ones, and timelines of them.
#![tactic(auto)]

pub mod laws;
mod order;
mod steps;
mod tap_set;
mod timeline;

pub use order::sort_touches;
pub use pay_rules::{Kind, Tap, Touch};
pub use steps::Steps;
pub use tap_set::TapSet;
pub use timeline::Timeline;
