//! Why an account was charged for a day and for a week, as JSON for programs, and the description of both documents.
#![tactic(auto)]

mod arrays;
mod corrections;
mod days;
mod journeys;
pub mod laws;
mod openapi;
mod places;
mod posted;
mod strings;
mod sums;
mod weeks;

pub use days::day_json;
pub use openapi::OPENAPI;
pub use weeks::week_json;
