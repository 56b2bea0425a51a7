//! The limits of an account, and the two peak windows of a day, in local seconds of it.

/// How many taps an account may have.
pub const MOST_TAPS: usize = 16_384;

/// How many corrections an account may have.
pub const MOST_FIXES: usize = 1_024;

/// The highest credit, in pence.
pub const MOST_CREDIT: u32 = 100_000;

/// How many effective taps an account may have: each of its taps, and one of each correction.
pub const MOST_TOUCHES: usize = MOST_TAPS + MOST_FIXES;

/// The morning's peak begins at 06:30:00.
pub const MORNING_PEAK_START: u32 = 23_400;

/// It ends before 09:30:00.
pub const MORNING_PEAK_END: u32 = 34_200;

/// The evening's peak begins at 16:00:00.
pub const EVENING_PEAK_START: u32 = 57_600;

/// It ends before 19:00:00.
pub const EVENING_PEAK_END: u32 = 68_400;
