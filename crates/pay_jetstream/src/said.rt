//! What the frames of a server say to whoever reads a partition.
ghost use Rattle.pay_nats.specs.Seen.{told};
ghost use Rattle.pay_jetstream.specs.Said.{IsNoLine, IsSaid};

use pay_nats::{Frame, Message, ack_of, status_of};

/// What a frame says.
#[derive(Clone, Copy)]
pub(crate) enum Said<'a> {
    /// The line at a place.
    Line { place: u64, line: &'a [u8] },
    /// More lines are sent once something is published under this subject.
    Waits(&'a [u8]),
    /// A `PONG` is wanted.
    Ping,
    /// Nothing.
    Nothing,
    /// No more lines are sent.
    Over,
}

/// What a frame says to whoever has the subscription of this number.
pub(crate) fn said_of<'a>(frame: &Frame<'a>, sid: u64) -> Said<'a>
    ensures { IsSaid sid (told frame.now) result }
{
    match frame {
        Frame::Ping => Said::Ping,
        Frame::Fault(_) => Said::Over,
        Frame::Info(_) | Frame::Pong | Frame::Done => Said::Nothing,
        Frame::Message(message) => said_of_message(message, sid),
    }
}

/// What a message says: to another subscription nothing, and by a status what the stream says of itself.
fn said_of_message<'a>(message: &Message<'a>, sid: u64) -> Said<'a>
    ensures { IsSaid sid (told (Frame.Message message.now)) result }
{
    if message.sid != sid {
        return Said::Nothing;
    }
    match status_in(message.headers) {
        Some(status) => said_of_status(status, message.reply),
        None => said_of_line(message),
    }
}

/// By a status of 100 the stream is idle, or waits; by any other it is over.
fn said_of_status<'a>(status: &[u8], reply: Option<&'a [u8]>) -> Said<'a>
    ensures { IsNoLine result }
{
    if !status.starts_with(b"100") {
        return Said::Over;
    }
    match reply {
        Some(subject) => Said::Waits(subject),
        None => Said::Nothing,
    }
}

/// A line stands where the subject for its acknowledgement says.
fn said_of_line<'a>(message: &Message<'a>) -> Said<'a>
    ensures { IsSaid message.now.sid (told (Frame.Message message.now)) result }
{
    let Some(subject) = message.reply else {
        return Said::Over;
    };
    match ack_of(subject) {
        Some(ack) => Said::Line {
            place: ack.place,
            line: message.payload,
        },
        None => Said::Over,
    }
}

/// The status in headers, if there are any.
fn status_in(headers: Option<&[u8]>) -> Option<&[u8]> {
    match headers {
        Some(headers) => status_of(headers),
        None => None,
    }
}
