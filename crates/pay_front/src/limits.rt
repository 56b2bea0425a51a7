//! The limits of a client.

/// How often its bytes are looked at, at the most.
pub const MOST_FILLS: u64 = 1 << 48;

/// How many lines it may send.
pub const MOST_LINES: u64 = 1 << 48;
