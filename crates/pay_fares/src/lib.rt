//! Single fares: what a journey costs by itself, whether it is peak, and the span of its stations.
#![tactic(auto)]

mod journey_fares;
pub mod laws;
mod peak;
mod runs;

pub use journey_fares::{fare, fare_by};
pub use peak::is_peak;
pub use runs::{span_of_run, span_of_station};
