//! The line that stands before all else of a frame.
ghost use Rattle.std.specs.Prelude.{◌≡◌, ◌+◌, ◌≤◌, length, IfOk, IfSome};
ghost use Rattle.std.specs.List.{position_or_len};
ghost use Rattle.pay_nats.specs.Faults.{is_newline, most_at};
ghost use Rattle.pay_nats.specs.Reading.{first_line, without_cr};
ghost use Rattle.pay_nats.specs.SeenParts.{seen_line};

use crate::frame::FrameFault;
use crate::limits::{MOST_INFO_BYTES, MOST_LINE_BYTES};
use memchr::memchr;

/// The first line without its CR LF, if there is a whole one.
#[tactic(auto, unfolding(crate::specs::Reading::first_line))]
pub(crate) fn first_line(bytes: &[u8]) -> Result<Option<&[u8]>, FrameFault>
    ensures value { seen_line result ≡ first_line bytes.now }
    ensures within { IfOk result (λ line. IfSome line (λ it. length it.now + 2 ≤ length bytes.now)) }
{
    let end = end_of_line(bytes);
    if end > most_at(bytes) + 1 {
        Err(FrameFault::LongLine)
    } else if end == bytes.len() {
        Ok(None)
    } else {
        without_cr(&bytes[..end])
    }
}

/// How many bytes the first line may have.
fn most_at(bytes: &[u8]) -> usize
    ensures value { result ≡ most_at bytes.now }
    ensures bound { result ≤ 65536 }
{
    if bytes.starts_with(b"INFO ") {
        MOST_INFO_BYTES
    } else {
        MOST_LINE_BYTES
    }
}

/// Where the first LF stands, or the length where there is none.
#[tactic(auto, using(crate::proofs::FirstNewline::by_search))]
fn end_of_line(bytes: &[u8]) -> usize
    ensures value { result ≡ position_or_len is_newline bytes.now }
    ensures within { result ≤ length bytes.now }
{
    memchr(b'\n', bytes).unwrap_or(bytes.len())
}

/// A line that ends with a CR, without it.
fn without_cr(line: &[u8]) -> Result<Option<&[u8]>, FrameFault>
    ensures value { seen_line result ≡ without_cr line.now }
    ensures within { IfOk result (λ it. IfSome it (λ it. length it.now + 1 ≤ length line.now)) }
{
    match line.strip_suffix(b"\r") {
        Some(line) => Ok(Some(line)),
        None => Err(FrameFault::Line),
    }
}
