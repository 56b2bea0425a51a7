//! The limits of a staff file, and of what a browser sends.

/// How many clerks there are at most.
pub const MOST_CLERKS: usize = 1_000;

/// The greatest number of a staff.
pub const MOST_STAFF: u32 = 65_535;

/// The most pence that one Credit of any clerk may have.
pub const MOST_LIMIT: u32 = 100_000;

/// How many characters a clerk's name has at most.
pub const MOST_NAME: usize = 64;

/// How many symbols of base64 are read of a field `Authorization` at most.
pub const MOST_SYMBOLS: usize = 1_024;

/// How many bytes these stand for at most.
pub const MOST_BYTES: usize = 768;
