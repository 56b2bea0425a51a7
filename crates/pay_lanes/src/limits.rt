//! The limits of lanes and of what waits.

use pay_shard::limits::MOST_SHARDS;

/// How many lanes there may be.
pub const MOST_LANES: u8 = 16;
/// How many entries wait for a shard at most.
pub const MOST_REQUESTS: usize = 64;
/// How many answers wait for a lane at most.
pub const MOST_ANSWERS: usize = 16;
/// How many commands of a lane may be unanswered.
pub const WINDOW: u64 = 16;
/// How many tickets a lane gives at most.
pub const MOST_TICKETS: u64 = 1 << 62;
/// How many journals there may be: one for each shard.
pub const MOST_JOURNALS: usize = MOST_SHARDS as usize;
