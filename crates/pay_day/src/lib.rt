//! Service days: the day that an instant belongs to, and the week of a day.
#![tactic(auto)]

pub mod laws;
pub mod limits;
mod moment;
mod service;
mod week;

pub use moment::Moment;
pub use service::{StampFault, stamp, stamp_at};
pub use week::{day_of_week, is_in_week_of, monday};
