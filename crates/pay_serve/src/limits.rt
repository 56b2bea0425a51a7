//! Which lane is spared, and how long a connection that has ended is kept for what its peer still sends.

/// The number of the lane whose commands no gate keeps: over it a service takes again what was kept before.
pub const SPARED_LANE: u8 = 0;
/// How long it waits for more, in milliseconds.
pub const LAST_WAIT: u64 = 100;
/// How often it takes what has come.
pub const LAST_READS: u32 = 256;
/// How many bytes it takes at a time.
pub const LAST_BYTES: usize = 4_096;
