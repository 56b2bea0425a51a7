//! The prices that answer a tap or a correction.

use pay_money::Pence;

/// What is answered to a tap or a correction that is not refused: the prices of the service day that it is of.
/// A correction is of the day that it names; where it names none, all three numbers are 0.
#[derive(Clone, Copy, Debug, PartialEq, Eq)]
pub struct Priced {
    /// Whether it is a repeat: it had been accepted before, and nothing changed.
    pub again: bool,
    /// The service day, counted from 1970-01-01.
    pub day: u32,
    /// The price of that day.
    pub day_price: Pence,
    /// The price of that day's week, from Monday through Sunday.
    pub week_price: Pence,
}
