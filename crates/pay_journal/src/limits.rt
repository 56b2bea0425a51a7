//! How far a replay runs ahead.

/// How many lines are handed to a desk before the reply to the first of them is got.
pub const MOST_AHEAD: usize = 16;
