//! How long a session may last.

/// How often a session looks at its reader's buffer at the most: a reader that never ends is a fault in the end.
pub const MOST_FILLS: u32 = 16_777_216;
