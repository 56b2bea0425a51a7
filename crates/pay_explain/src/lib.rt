//! Why a day was charged, in plain words: a line for each journey, and for each sum.
#![tactic(auto)]

mod amounts;
mod corrections;
mod day;
mod explained;
mod facts;
mod journeys;
mod lines;
mod routes;
mod sentences;
mod sums;
mod week;
mod week_days;

pub use amounts::{Clock, Head, Pounds};
pub use corrections::{CorrectionLine, push_correction};
pub use day::day_text;
pub use explained::{explained_day, explained_week};
pub use facts::{DayFacts, PricedDay, WeekFacts, day_facts, week_facts};
pub use lines::{Line, NamedLine, Why, line_of};
pub use routes::{NamedPlace, NamedRoute, Route, route_of};
pub use sentences::{BoardingWhy, LoneWhy, Peakness, RailWhy, When, Zones};
pub use sums::{BandLines, Covered, DaySums};
pub use week::{CreditLine, DayLine, DueLines, WeekSums};
pub use week_days::week_text;
