//! Why a journey costs what it costs by itself, why a day and a week cost what they cost, what is due of that,
//! and what corrections do, for whoever asks why it was charged.
#![tactic(auto)]

mod boarding;
mod boardings;
mod cap;
mod caps;
mod correction;
mod corrections;
mod day_list;
mod due;
mod dues;
pub mod laws;
mod listed;
mod lone;
mod lone_taps;
mod peak;
mod peaks;
mod places;
mod rail;
mod rail_journeys;
mod standing;
mod week_caps;

pub use boarding::BoardingReason;
pub use boardings::{boarding_fare, boarding_reason};
pub use cap::{CapReason, CappedBand};
pub use caps::day_reason;
pub use correction::{FixReason, TapReason};
pub use corrections::{fix_reason, tap_reason};
pub use day_list::{listed_journeys, next_boarding};
pub use due::DueReason;
pub use dues::{counted_credits, due_reason};
pub use listed::{ListedJourney, Mode};
pub use lone::LoneReason;
pub use lone_taps::lone_reason;
pub use peak::PeakReason;
pub use peaks::peak_reason;
pub use places::rail_reason_at;
pub use rail::RailReason;
pub use rail_journeys::rail_reason;
pub use week_caps::week_reason;
