//! The lines of one client.
ghost use Rattle.pay_session.specs.Requests.{IsAsked as IsInRange};

use crate::answering::{Front, answer_line};
use crate::client_line::{Came, ClientLine, read_line};
use crate::limits::MOST_LINES;
use crate::partitions::{Now, Partitions};
use arrayvec::ArrayVec;
use pay_session::{Request, request_of};
use pay_wire::limits::MOST_LINE_BYTES;
use pay_wire::{KnownWriter, Refusal, SpelledReply, send, send_line};
use std::alloc::Global;
use std::io::BufRead;

/// How a client's lines ended.
#[derive(Clone, Copy, Debug, PartialEq, Eq)]
pub enum Ended {
    /// By a `QUIT`.
    Quit,
    /// By the end of what it sends.
    End,
    /// Its bytes could not be read on, or its replies not be written.
    Lost,
    /// Memory was refused.
    Memory,
}

/// Answers the lines of a client at a port of a front, one after another and each before the next is read, up to a `QUIT` or to the end of what
/// it sends.
pub fn serve_client<R: BufRead, W: KnownWriter, P: Partitions, C: Now>(
    alloc: Global,
    front: &Front<'_>,
    clock: &mut C,
    partitions: &mut P,
    reader: &mut R,
    writer: &mut W,
) -> Ended {
    let mut line = ArrayVec::new();
    let mut out = Vec::new(alloc);
    for _ in 0..MOST_LINES {
        let request = match read_line(reader, &mut line) {
            Came::Line => request_of(line.as_slice()),
            Came::Rest => request_of_rest(&line),
            Came::End => return Ended::End,
            Came::Fault => return Ended::Lost,
        };
        let answered = answer_line(
            alloc,
            front,
            clock,
            partitions,
            request,
            line.as_slice(),
            &mut out,
        );
        if answered.is_err() {
            let _ = send(writer, &SpelledReply::No(Refusal::Memory));
            return Ended::Memory;
        }
        if send_line(writer, out.as_slice()).is_err() {
            return Ended::Lost;
        }
        if request.is_quit() {
            return Ended::Quit;
        }
    }
    Ended::Lost
}

/// What is asked for by bytes that no newline ends: nothing, since a number that is cut could be another number.
fn request_of_rest(rest: &ClientLine) -> Request
    ensures { IsInRange result }
{
    if rest.len() > MOST_LINE_BYTES {
        Request::LongLine
    } else {
        Request::BadLine
    }
}
