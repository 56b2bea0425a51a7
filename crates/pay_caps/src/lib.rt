//! The price of a day: the fares of its journeys, capped by the bands of the fare file. And the sums of
//! fares that it is computed from.
#![tactic(auto)]

mod cell;
mod cells;
mod day_prices;
pub mod laws;
pub mod limits;

pub use cell::{Cell, cell_of, covers};
pub use cells::Cells;
pub use day_prices::{Offer, capped_price, capped_price_outside, day_price, lower};
pub use pay_fares::{fare, fare_by, laws as fare_laws};
