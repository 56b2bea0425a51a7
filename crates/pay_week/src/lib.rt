//! The price of a week: the prices of its days, capped by the bands of the fare file; and what is due of it.
#![tactic(auto)]

pub mod laws;
mod week_prices;

pub use pay_caps::{Cells, cell_of, covers, day_price, fare, fare_by, fare_laws, laws as day_laws};
pub use week_prices::{due, price_of_days, week_price};
