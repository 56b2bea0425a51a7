//! The numbers of a service, as a Prometheus server reads them: a text of the exposition format, 0.0.4.
#![tactic(auto)]

mod families;
mod fields;
pub mod laws;
pub mod limits;
mod metrics;

pub use metrics::{DOWN, metrics_of};
