//! The limits of sums of fares.

/// How many spans there are within nine zones.
pub const SPANS: usize = 45;
