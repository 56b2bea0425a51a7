//! A connection to a server, by which something is asked for and answered.
ghost use Rattle.std.specs.Prelude.{◌≡◌, [], ◌∷◌, false, None, Some, IfOk, OnOk, option_copied};
ghost use Rattle.pay_nats.specs.Requests.{published};
ghost use Rattle.pay_nats.specs.Seen.{told_message};
ghost use Rattle.pay_jetstream.specs.Answered.{HaveNoStatus, IsAnswered, IsAwaited, IsHeard};
ghost use Rattle.pay_jetstream.specs.Asks.{Asks, answers_sid, greeting, question};
ghost use Rattle.pay_jetstream.specs.Opening.{IsFollowed, SaysOfItself, taken};

use crate::whole::read_whole;
use crate::writing::write;
use pay_follow::LogFault;
use pay_jetstream_api::{ApiFault, Server, read_server};
use pay_nats::{Frame, Message, Publication, Request, read_frame, status_of};
use pay_wire::KnownWriter;
use std::alloc::Global;
use std::io::BufRead;

/// The oldest version of a server that is followed: replicas of older ones were seen to disagree.
const OLDEST: (u64, u64) = (2, 10);

/// By these numbers JetStream refuses what it cannot do now, while its servers agree on a leader.
const UNAVAILABLE: u64 = 10_008;

const NOT_LEADER: u64 = 10_009;

/// The number of the subscription to answers.
const ANSWERS: u64 = 1;

/// How many frames may come before an answer.
const MOST_FRAMES: u64 = 1 << 20;

/// A connection to a server of NATS, at which a client asks for one thing after another. In a contract it is its parts.
#[derive(Drop)]
pub struct Client<R: BufRead, W: KnownWriter> {
    pub(crate) reader: R,
    pub(crate) writer: W,
    // The frame that was read last, and what was written last.
    pub(crate) held: Vec<u8>,
    pub(crate) out: Vec<u8>,
    // The subject under which answers come.
    pub(crate) inbox: Vec<u8>,
}

/// What a frame is to a client that waits.
enum Heard<'a> {
    /// What it waits for.
    Awaited(&'a [u8]),
    /// A `PONG` is wanted.
    Ping,
    /// Something else.
    Other,
    /// Nobody gives it.
    Nobody,
    /// It comes no more.
    Over,
}

/// Whether a server is followed.
fn taken(server: Server) -> Result<(), LogFault>
    ensures { result ≡ taken server }
{
    if (server.major, server.minor) < OLDEST {
        return Err(LogFault::TooOld);
    }
    if server.has_headers && server.has_jetstream {
        Ok(())
    } else {
        Err(LogFault::NotUnderstood)
    }
}

/// What an answer that is none of a log's comes to.
pub(crate) fn fault_of(fault: ApiFault) -> LogFault {
    match fault {
        ApiFault::NotUnderstood => LogFault::NotUnderstood,
        ApiFault::Refused {
            code: UNAVAILABLE | NOT_LEADER,
        } => LogFault::NoAnswer,
        ApiFault::Refused { code } => LogFault::Refused { code },
        ApiFault::Memory => LogFault::Memory,
    }
}

/// What a frame says of its server.
fn server_in(alloc: Global, held: &[u8]) -> Result<Server, LogFault>
    ensures { IfOk result (λ server. SaysOfItself held.now server) }
{
    match read_frame(held) {
        Ok(Some((Frame::Info(text), _))) => match read_server(alloc, text) {
            Ok(server) => Ok(server),
            Err(fault) => Err(fault_of(fault)),
        },
        Ok(_) | Err(_) => Err(LogFault::NotUnderstood),
    }
}

/// What a frame is to a client that waits for a `PONG`.
fn heard_of_pong(held: &[u8]) -> Heard<'_> {
    match read_frame(held) {
        Ok(Some((Frame::Pong, _))) => Heard::Awaited(&[]),
        Ok(Some((Frame::Ping, _))) => Heard::Ping,
        Ok(Some((Frame::Fault(_), _))) | Ok(None) | Err(_) => Heard::Over,
        Ok(Some(_)) => Heard::Other,
    }
}

/// And to one that waits for an answer. An answer with a status says that nobody answers now.
fn heard_of_answer(held: &[u8]) -> Heard<'_>
    ensures { IsHeard held.now result }
{
    match read_frame(held) {
        Ok(Some((Frame::Message(message), _))) if message.sid == ANSWERS => answer_in(message),
        Ok(Some((Frame::Ping, _))) => Heard::Ping,
        Ok(Some((Frame::Fault(_), _))) | Ok(None) | Err(_) => Heard::Over,
        Ok(Some(_)) => Heard::Other,
    }
}

/// What a message of the subscription to answers is.
fn answer_in(message: Message<'_>) -> Heard<'_>
    ensures { message.entry.sid ≡ answers_sid → IsAwaited (told_message message.entry) result }
{
    if has_status(message.headers) {
        Heard::Nobody
    } else {
        Heard::Awaited(message.payload)
    }
}

/// Whether the server says something of a message in its headers.
fn has_status(headers: Option<&[u8]>) -> bool
    ensures { result ≡ false → HaveNoStatus (option_copied headers.entry) }
{
    match headers {
        Some(headers) => status_of(headers).is_some(),
        None => false,
    }
}

impl<R: BufRead + Drop, W: KnownWriter + Drop> Client<R, W> {
    /// Greets a server, whose bytes are not read yet, and is to have its answers under a subject that nobody else has.
    pub fn greet(
        alloc: Global,
        reader: R,
        writer: W,
        inbox: Vec<u8>,
    ) -> Result<Client<R, W>, LogFault>
        ensures written { IfOk result (λ client. Asks (greeting inbox.items) (W.contents writer) (W.contents client.writer)) }
        ensures inbox { IfOk result (λ client. client.inbox ≡ inbox) }
        ensures server { OnOk result (IsFollowed (R.remaining reader)) }
    {
        let mut client = Client {
            reader,
            writer,
            held: Vec::new(alloc),
            out: Vec::new(alloc),
            inbox,
        };
        read_whole(&mut client.reader, &mut client.held)?;
        taken(server_in(alloc, &client.held)?)?;
        client.begin()?;
        Ok(client)
    }

    /// Says what it can do, subscribes to its answers, and waits until the server has taken both.
    fn begin(&mut self) -> Result<(), LogFault>
        ensures written { OnOk result (Asks (greeting self.old.inbox.items) (W.contents self.old.writer) (W.contents self.new.writer)) }
        ensures inbox { self.new.inbox ≡ self.old.inbox }
    {
        write(&mut self.writer, &mut self.out, &Request::Connect)?;
        let answers = Request::Subscribe {
            subject: &self.inbox,
            sid: ANSWERS,
        };
        write(&mut self.writer, &mut self.out, &answers)?;
        write(&mut self.writer, &mut self.out, &Request::Ping)?;
        for _ in 0..MOST_FRAMES {
            read_whole(&mut self.reader, &mut self.held)?;
            match heard_of_pong(&self.held) {
                Heard::Awaited(_) => return Ok(()),
                Heard::Ping => write(&mut self.writer, &mut self.out, &Request::Pong)?,
                Heard::Other => {}
                Heard::Nobody => return Err(LogFault::NoAnswer),
                Heard::Over => return Err(LogFault::NotReached),
            }
        }
        Err(LogFault::NotReached)
    }

    /// Publishes something under a subject, and waits for the answer to it.
    pub fn ask(
        &mut self,
        subject: &[u8],
        payload: &[u8],
        answer: &mut Vec<u8>,
    ) -> Result<(), LogFault>
        ensures answer { OnOk result (IsAnswered (R.remaining self.old.reader) answer.new.items) }
        ensures written { OnOk result (Asks (question self.old.inbox.items subject.now payload.now ∷ []) (W.contents self.old.writer) (W.contents self.new.writer)) }
        ensures inbox { self.new.inbox ≡ self.old.inbox }
    {
        let request = Request::Publish(asking(subject, &self.inbox, payload));
        write(&mut self.writer, &mut self.out, &request)?;
        self.await_answer(answer)
    }

    /// Waits for an answer.
    fn await_answer(&mut self, answer: &mut Vec<u8>) -> Result<(), LogFault>
        ensures answer { OnOk result (IsAnswered (R.remaining self.old.reader) answer.new.items) }
        ensures written { OnOk result (Asks [] (W.contents self.old.writer) (W.contents self.new.writer)) }
        ensures inbox { self.new.inbox ≡ self.old.inbox }
    {
        for _ in 0..MOST_FRAMES {
            read_whole(&mut self.reader, &mut self.held)?;
            match heard_of_answer(&self.held) {
                Heard::Awaited(payload) => return replace(answer, payload),
                Heard::Ping => write(&mut self.writer, &mut self.out, &Request::Pong)?,
                Heard::Other => {}
                Heard::Nobody => return Err(LogFault::NoAnswer),
                Heard::Over => return Err(LogFault::NotReached),
            }
        }
        Err(LogFault::NotReached)
    }
}

/// Something that is published under a subject, and wants an answer under another.
fn asking<'a>(subject: &'a [u8], inbox: &'a [u8], payload: &'a [u8]) -> Publication<'a>
    ensures { published result ≡ record { subject = subject.now; reply = Some inbox.now; headers = None; payload = payload.now } }
{
    Publication {
        subject,
        reply: Some(inbox),
        headers: None,
        payload,
    }
}

/// Puts some bytes in the place of others.
fn replace(held: &mut Vec<u8>, bytes: &[u8]) -> Result<(), LogFault>
    ensures { OnOk result (held.new.items ≡ bytes.now) }
{
    held.clear();
    match held.extend_from_slice(bytes) {
        Ok(()) => Ok(()),
        Err(_) => Err(LogFault::Memory),
    }
}
