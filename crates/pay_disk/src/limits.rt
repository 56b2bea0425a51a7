//! How much memory a database takes beside its rows.

/// How many of the pages that were read are kept beside the files. Each has 4,096 bytes, and the room for all is taken at once.
pub const CACHED_PAGES: usize = 256;

/// How many pages a transaction writes before they go to the log.
pub const UNSPILLED_PAGES: usize = 2_000;

/// How many pages the log has before they are copied into the database file.
pub const LOGGED_PAGES: usize = 1_000;
