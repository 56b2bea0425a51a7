//! How many commands a close puts.

use pay_shard::limits::MOST_SHARDS;

/// One for each shard.
pub const MOST_PUT: usize = MOST_SHARDS as usize;
