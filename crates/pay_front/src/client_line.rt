//! The lines of a client, one after another.
ghost use Rattle.std.specs.Prelude.{◌≡◌, ◌++◌};
ghost use Rattle.pay_session.specs.Requests.{kept_of};

use crate::limits::MOST_FILLS;
use arrayvec::ArrayVec;
use memchr::memchr;
use pay_wire::limits::MOST_LINE_BYTES;
use std::io::{BufRead, ErrorKind};

/// One byte more than a line may have, so that a line which is too long shows.
const KEPT_BYTES: usize = MOST_LINE_BYTES + 1;

/// As much of a line as is kept.
pub(crate) type ClientLine = ArrayVec<u8, KEPT_BYTES>;

/// What was read.
#[derive(Clone, Copy, Debug, PartialEq, Eq)]
pub(crate) enum Came {
    /// A line, whose newline was read too.
    Line,
    /// What no newline ends, before the end of the input.
    Rest,
    /// The end of the input.
    End,
    /// Nothing: the reader failed.
    Fault,
}

/// Adds bytes to a line, as far as they are kept.
fn keep(line: &mut ClientLine, more: &[u8])
    ensures { line.new.items ≡ kept_of (line.old.items ++ more.now) }
{
    let room = KEPT_BYTES - line.len();
    let _ = line.try_extend_from_slice(&more[..room.min(more.len())]);
}

/// Reads a line in place of what was held.
pub(crate) fn read_line<R: BufRead>(reader: &mut R, line: &mut ClientLine) -> Came {
    line.clear();
    for _ in 0..MOST_FILLS {
        let shown = match reader.fill_buf() {
            Ok(shown) => shown,
            Err(error) if error.kind() == ErrorKind::Interrupted => continue,
            Err(_) => return Came::Fault,
        };
        if shown.is_empty() {
            return if line.is_empty() {
                Came::End
            } else {
                Came::Rest
            };
        }
        let len = shown.len();
        match memchr(b'\n', shown) {
            Some(end) => {
                keep(line, &shown[..end]);
                reader.consume(end + 1);
                return Came::Line;
            }
            None => {
                keep(line, shown);
                reader.consume(len);
            }
        }
    }
    Came::Fault
}
