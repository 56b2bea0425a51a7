//! The limits of what a server sends.

/// How many bytes a line may have that is no `INFO`, its CR LF apart.
pub const MOST_LINE_BYTES: usize = 4_096;

/// How many bytes the line of an `INFO` may have, its CR LF apart.
pub const MOST_INFO_BYTES: usize = 65_536;

/// How many bytes the headers and the payload of a message may have together.
pub const MOST_PAYLOAD_BYTES: usize = 1_048_576;

/// How many bytes a frame may have: a line, a payload, and a CR LF after each.
pub const MOST_FRAME_BYTES: usize = MOST_LINE_BYTES + 2 + MOST_PAYLOAD_BYTES + 2;
