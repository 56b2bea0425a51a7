//! Whether a ledger agrees with what accounts have accepted, and whether what they owe was posted, and what no close has
//! reached.
#![tactic(auto)]

mod beside;
mod comparing;
mod difference;
mod settling;
mod unclosed;

pub use beside::{first_difference, next_difference};
pub use difference::Difference;
pub use settling::{PostedSoFar, PostedSums, posted_for, unsettled, weeks_of};
pub use unclosed::{WeekClosed, is_unclosed};
