//! The limits of sums of money.

/// The largest sum of money that any account has, in pence: 40,000,000 pounds.
pub const MOST_MONEY: u64 = 4_000_000_000;

/// Among how many operators money is shared: those numbered from 1 to 16.
pub const OPERATORS: usize = 16;
