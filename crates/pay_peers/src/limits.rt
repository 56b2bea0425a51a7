//! How many connections a service holds, and how a lane divides its time among them.

/// How many connections of readers and customers a service holds at most, over all its lanes. One more is dropped.
pub const MOST_PEERS: usize = 10_000;
/// How many connections of staff it holds at most, beside those.
pub const MOST_STAFF: usize = 16;
/// How many are taken at a time.
pub const MOST_ACCEPTED: u32 = 256;
/// How many are told at a time to have something to read.
pub const MOST_EVENTS: usize = 1_024;
/// How many bytes of one are read at a time.
pub const PIECE_BYTES: usize = 16_384;
/// How many such pieces of one are taken before others have their turn.
pub const TURN_PIECES: u32 = 4;
/// How often it tries to send what was written on one before others have their turn.
pub const TURN_SENDS: u32 = 64;
/// How long it waits at most, in milliseconds, before it looks whether it is told to stop.
pub const LONGEST_WAIT: u64 = 50;
/// How often in a row it may fail to wait before the service ends.
pub const MOST_FAILURES: u32 = 16;
/// How many bytes of replies may wait to be sent on one before no more of its lines are taken.
pub const MOST_UNSENT: usize = 65_536;
/// How many bytes of room for replies one keeps once all have left.
pub const KEPT_ROOM: usize = 4_096;
/// How often it takes what a peer still sends on one that is over.
pub const LAST_READS: u32 = 256;
