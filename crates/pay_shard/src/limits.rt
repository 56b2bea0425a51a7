//! The limits of shards and of their journals.

/// How many shards there may be.
pub const MOST_SHARDS: u8 = 16;

/// How many items a block of a journal has.
pub const BLOCK_ITEMS: usize = 1_024;
