//! The limits of a line and of the numbers in it.

/// How many bytes a line of the input may have, its newline apart.
pub const MOST_LINE_BYTES: usize = 128;

/// The greatest number that a word of a line may spell.
pub const MOST_NUMBER: u64 = 4_294_967_295;

/// The greatest number of a reader.
pub const MOST_READER: u32 = 65_535;

/// The greatest number of a staff.
pub const MOST_STAFF: u32 = 65_535;

/// The greatest number of a tap among those of its reader, and of a correction among those of its staff.
pub const MOST_SEQ: u32 = 4_294_967_295;

/// The greatest number of an account.
pub const MOST_ACCOUNT: u32 = 4_294_967_295;

/// The greatest instant that a line may spell, in seconds of the Unix clock. Those that are taken end before it.
pub const MOST_UTC: u32 = 4_294_967_295;

/// The greatest number of a place.
pub const MOST_PLACE: u32 = 65_535;
