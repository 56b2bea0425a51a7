//! Frames, read one after another.
ghost use Rattle.std.specs.Prelude.{◌≡◌, ◌≢◌, ◌↔◌, ℕ, ◌+◌, ◌<◌, ◌≤◌, List, [], ◌++◌, length, Some, None, Ok, Err, IfOk, IfSome};
ghost use Rattle.pay_nats.specs.Faults.{Because};
ghost use Rattle.pay_nats.specs.Frames.{IsFrame, StandsAt, Told, frame_bytes};
ghost use Rattle.pay_nats.specs.Reading.{frame_at, frame_by, meaning_of, message_at, message_of, with_taken};
ghost use Rattle.std.specs.Str.{bytes_eq};
ghost use Rattle.pay_nats.specs.Lines.{crlf};
ghost use Rattle.pay_nats.specs.declared.frame.FrameFault.{FrameFault};
ghost use Rattle.pay_nats.specs.declared.limits.TheConstants.{MOST_FRAME_BYTES, MOST_PAYLOAD_BYTES};
ghost use Rattle.pay_nats.specs.Seen.{seen, told};
ghost use Rattle.pay_nats.specs.SeenParts.{address_seen, seen_meaning, seen_message};

use crate::frame::{Frame, FrameFault, Message};
use crate::limits::MOST_PAYLOAD_BYTES;
use crate::line::first_line;
use crate::meaning::{Meaning, meaning_of};
use crate::sizes::Sizes;

/// Reads the frame at the front of some bytes, and says how many bytes it has; bytes of later frames may follow. `None` is the begin of a
/// frame that is not all there: read more bytes after these, and ask again. A fault is one whatever follows, so that nothing more can be
/// read of the connection.
pub fn read_frame(bytes: &[u8]) -> Result<Option<(Frame<'_>, usize)>, FrameFault>
    // What is read stands at the front, each byte of it.
    ensures found { IfOk result (λ it. IfSome it (λ it. StandsAt bytes.now (told it.0) it.1)) }

    // What stands at the front is read, whatever follows.
    ensures whole { (frame : Told) (rest : List ℕ) → IsFrame frame → bytes.now ≡ frame_bytes frame ++ rest
        → seen result ≡ Ok (Some (frame, length (frame_bytes frame))) }

    // Wherever a frame is cut, more is wanted, and never more than the longest frame has.
    ensures cut { (frame : Told) (rest : List ℕ) → IsFrame frame → rest ≢ [] → bytes.now ++ rest ≡ frame_bytes frame
        → seen result ≡ Ok None }
    ensures bounded { seen result ≡ Ok None → length bytes.now < MOST_FRAME_BYTES }

    // Each fault has one reason.
    ensures fault { (fault : FrameFault) → (seen result ≡ Err fault) ↔ Because fault bytes.now }
{
    frame_at(bytes)
}

/// The same, a step at a time.
fn frame_at(bytes: &[u8]) -> Result<Option<(Frame<'_>, usize)>, FrameFault>
    ensures { seen result ≡ frame_at bytes.now }
{
    match first_line(bytes)? {
        Some(line) => frame_of_line(line, &bytes[line.len() + 2..]),
        None => Ok(None),
    }
}

/// The frame of a line, and of what stands after its CR LF.
fn frame_of_line<'a>(
    line: &'a [u8],
    rest: &'a [u8],
) -> Result<Option<(Frame<'a>, usize)>, FrameFault>
    ensures { seen result ≡ frame_by (length line.now) rest.now (meaning_of line.now) }
{
    match meaning_of(line) {
        Some(Meaning::Whole(frame)) => Ok(Some((frame, line.len() + 2))),
        Some(Meaning::Sized(sizes)) => sized(&sizes, line, rest),
        None => Err(FrameFault::Line),
    }
}

/// A message after its line.
fn sized<'a>(
    sizes: &Sizes<'a>,
    line: &[u8],
    rest: &'a [u8],
) -> Result<Option<(Frame<'a>, usize)>, FrameFault>
    ensures { seen result ≡ with_taken (length line.now + sizes.now.total + 4) (message_at (address_seen sizes.now) sizes.now.headers sizes.now.total rest.now) }
{
    match message_at(sizes, rest)? {
        Some(frame) => Ok(Some((frame, line.len() + sizes.total as usize + 4))),
        None => Ok(None),
    }
}

/// The message whose content stands at the front, if all of it is there.
#[tactic(auto, unfolding(crate::specs::Reading::message_at))]
fn message_at<'a>(sizes: &Sizes<'a>, rest: &'a [u8]) -> Result<Option<Frame<'a>>, FrameFault>
    ensures value { seen_message result ≡ message_at (address_seen sizes.now) sizes.now.headers sizes.now.total rest.now }
    ensures within { IfOk result (λ it. sizes.now.total ≤ MOST_PAYLOAD_BYTES) }
{
    if sizes.total > MOST_PAYLOAD_BYTES as u64 {
        return Err(FrameFault::LongPayload);
    }
    let total = sizes.total as usize;
    if rest.len() < total + 2 {
        Ok(None)
    } else if ends_line(&rest[total..total + 2]) {
        Ok(Some(message_of(sizes, &rest[..total])))
    } else {
        Err(FrameFault::Unended)
    }
}

/// A message by its content.
fn message_of<'a>(sizes: &Sizes<'a>, content: &'a [u8]) -> Frame<'a>
    requires { IfSome sizes.now.headers (λ headers. headers ≤ length content.now) }
    ensures { told result ≡ message_of (address_seen sizes.now) sizes.now.headers content.now }
{
    let (headers, payload) = match sizes.headers {
        Some(headers) => {
            let (headers, payload) = content.split_at(headers as usize);
            (Some(headers), payload)
        }
        None => (None, content),
    };
    Frame::Message(Message {
        subject: sizes.subject,
        sid: sizes.sid,
        reply: sizes.reply,
        headers,
        payload,
    })
}

/// Whether bytes are a CR LF.
fn ends_line(bytes: &[u8]) -> bool
    ensures { result ≡ bytes_eq bytes.now crlf }
{
    matches!(bytes, b"\r\n")
}
