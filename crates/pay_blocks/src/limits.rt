//! The lengths of a block.

/// How many items a block may have.
pub const MOST: usize = 256;

/// How many stay where a full block is split.
pub const HALF: usize = 128;
