//! The fare rules: all definitions of prices, and the plain types that they speak of.
//!
//! The rules stand in `specs/`, a file a topic, with their worked rows: the order of taps, effective taps, legs and journeys, peak
//! fares, the Hopper rule, the prices of days and weeks, what is due, its shares, and what a tap and a correction come to. Here are
//! the types, and the trait [`Fares`], which an account meets whose prices are those of the rules. Nothing here computes a price.
#![tactic(auto)]

mod addition;
mod boxed_quote;
mod credit;
mod fares;
mod fix;
mod fix_number;
mod journey;
pub mod limits;
mod numbered;
mod parts;
mod post_fault;
mod posting;
mod priced;
mod quote;
mod sets;
mod shown;
mod tap;
mod tap_number;

pub use addition::{Addition, AdditionFault};
pub use boxed_quote::BoxedQuote;
pub use credit::Credit;
pub use fares::{Fares, FixFault, TapFault};
pub use fix::{Fix, What};
pub use journey::{Journey, Run};
pub use numbered::Numbered;
pub use parts::{Leg, RailPart};
pub use post_fault::PostFault;
pub use posting::{Posting, Postings};
pub use priced::Priced;
pub use quote::Quote;
pub use sets::Sets;
pub use shown::{Line, LineKind, Lines, Shown};
pub use tap::{Kind, Tap, Touch};
