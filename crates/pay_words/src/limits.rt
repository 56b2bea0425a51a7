//! The ranges of the numbers among the words.

/// The greatest number of an account. The least is 1.
pub const MOST_ACCOUNT: u64 = 4_294_967_295;

/// The greatest port that a lane may listen on. The least is 1.
pub const MOST_PORT: u64 = 65_535;

/// The greatest number of lanes that a service has ports for. The least is 1.
pub const MOST_SERVED_LANES: u64 = 15;

/// The greatest number of lanes at the port of a service that stays, where one lane more is that of its staff. The
/// least is 1.
pub const MOST_STAYING_LANES: u64 = 14;

/// The greatest number of shards. The least is 1.
pub const MOST_SHARDS: u64 = 16;

/// The greatest number of connections that a lane serves. The least is 1.
pub const MOST_SESSIONS: u64 = 1_000;

/// The greatest length of a greeting, in bytes. The least is 1.
pub const MOST_GREETING_BYTES: usize = 128;

/// The greatest number of seconds that a tap may be ahead of this machine's clock, where there is such a limit. The
/// least is 0.
pub const MOST_AHEAD: u64 = 86_400;

/// The greatest number of partitions of a replicated log. The least is 1.
pub const MOST_PARTITIONS: u64 = 16;

/// The greatest partition, where there are as many as there can be. The least is 0.
pub const LAST_PARTITION: u64 = 15;

/// The greatest number of nodes that have a copy of a replicated log. The least is 1.
pub const MOST_REPLICAS: u64 = 5;
