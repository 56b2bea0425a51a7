//! Service days and their dates on the calendar.
#![tactic(auto)]

mod dated;
pub mod laws;
mod reading;

pub use dated::{CalendarDay, DatedDay, DatedWeek};
pub use reading::read_day;
