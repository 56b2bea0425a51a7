//! The pages of customer service: why an account was charged for a day and for a week, as HTML.
#![tactic(auto)]

mod corrections;
mod days;
mod forms;
mod frame;
mod headings;
mod journeys;
mod links;
mod marks;
mod picture;
mod posted;
mod style;
mod sums;
mod weeks;

pub use days::day_page;
pub use forms::form_page;
pub use frame::{PageEnd, PageStart};
pub use headings::NamedDay;
pub use links::DayLink;
pub use posted::{Posted, PostedWeek};
pub use style::STYLE;
pub use weeks::week_page;
