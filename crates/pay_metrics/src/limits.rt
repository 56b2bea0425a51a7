//! The limit of a number.

/// How many digits a number has at most, those of 2 to the 64th.
pub const MOST_DIGITS: usize = 20;
