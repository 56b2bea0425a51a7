//! A partition of a log in a stream of JetStream.
ghost use Rattle.std.specs.Prelude.{◌≡◌, ◌++◌, [], true, false, suc, decimal, None, OnOk, OnErr, IfOk};
ghost use Rattle.pay_nats.specs.Requests.{published};
ghost use Rattle.pay_jetstream.specs.Asks.{Answers};
ghost use Rattle.pay_jetstream.specs.Given.{IsGivenBy};
ghost use Rattle.pay_jetstream.specs.StreamParts.{IsSameStream};
ghost use Rattle.pay_jetstream.specs.Taken.{GivesIn};

use crate::published::Published;
use crate::said::{Said, said_of};
use crate::whole::read_whole;
use crate::writing::write;
use itoa::Buffer;
use pay_follow::{LogFault, Partition};
use pay_nats::{Publication, Request, read_frame};
use pay_wire::KnownWriter;
use std::alloc::{AllocError, Global};
use std::io::BufRead;
use std::marker::Model;
use std::snapshot::Snapshot;

/// How many frames may come before the next line.
const MOST_FRAMES: u64 = 1 << 32;

/// A partition of a log that is a stream of JetStream, at a connection with a subscription to it. In a contract it is the number of the
/// subscription, the bytes that the server sends, where they are known, the last place that was read, and what was published.
#[derive(Drop)]
pub struct JetStream<R: BufRead, W: KnownWriter> {
    reader: R,
    writer: W,
    // The frame that was read last, and what was written last.
    held: Vec<u8>,
    out: Vec<u8>,
    // The subject under which replies are published, up to the place, and that of the last one; and the reply.
    answers: Vec<u8>,
    subject: Vec<u8>,
    reply: Vec<u8>,
    sid: u64,
    last: u64,
    // Whether it cannot be read on.
    failed: bool,
    // The reader before the first frame.
    began: Snapshot<R>,
    published: Published,
}

impl<R: BufRead, W: KnownWriter> Model for JetStream<R, W> {
    ghost use Rattle.pay_jetstream.specs.StreamParts.{StreamParts, stream_code, all_published, IsUnderway};

    ghost Value = { StreamParts };

    ghost coded = { stream_code };

    ghost view = { λ s. record { sid = s.sid; answers = s.answers.items; sent = R.remaining s.began.value; written = W.contents s.writer; last = s.last; published = all_published s.published } };

    ghost invariant = { λ s. IsUnderway s.failed (R.remaining s.began.value) (R.remaining s.reader) };
}

/// Does what a frame asks for, and says whether it gave the line after a place.
fn heed<W: KnownWriter>(
    held: &[u8],
    sid: u64,
    last: u64,
    writer: &mut W,
    out: &mut Vec<u8>,
    line: &mut Vec<u8>,
) -> Result<bool, LogFault>
    ensures line { IfOk result (λ is_line. is_line ≡ true → GivesIn sid held.now (suc last) line.new.items) }
    ensures written { OnOk result (Answers (W.contents writer.old) (W.contents writer.new)) }
{
    let said = match read_frame(held) {
        Ok(Some((frame, _))) => said_of(&frame, sid),
        Ok(None) | Err(_) => Said::Over,
    };
    match said {
        Said::Line { place, line: given } => {
            if place == 0 || place - 1 != last {
                return Err(LogFault::Gap {
                    after: last,
                    gave: place,
                });
            }
            line.clear();
            if line.extend_from_slice(given).is_err() {
                return Err(LogFault::Memory);
            }
            Ok(true)
        }
        Said::Waits(subject) => {
            write(writer, out, &Request::Publish(under(subject, &[])))?;
            Ok(false)
        }
        Said::Ping => {
            write(writer, out, &Request::Pong)?;
            Ok(false)
        }
        Said::Nothing => Ok(false),
        Said::Over => Err(LogFault::NotReached),
    }
}

/// Something that is published under a subject.
fn under<'a>(subject: &'a [u8], payload: &'a [u8]) -> Publication<'a>
    ensures { published result ≡ record { subject = subject.now; reply = None; headers = None; payload = payload.now } }
{
    Publication {
        subject,
        reply: None,
        headers: None,
        payload,
    }
}

impl<R: BufRead, W: KnownWriter> JetStream<R, W> {
    /// Takes a frame, and says whether it gave the next line.
    fn take_frame(&mut self, line: &mut Vec<u8>) -> Result<bool, LogFault>
        ensures same { IsSameStream self.old self.new }
        ensures line { IfOk result (λ is_line. is_line ≡ true → (self.new.last ≡ suc self.old.last) × IsGivenBy (self.old.sid, self.old.sent) (suc self.old.last) line.new.items) }
        ensures stays { IfOk result (λ is_line. is_line ≡ false → self.new.last ≡ self.old.last) }
        ensures failed { OnErr result (self.new.last ≡ self.old.last) }
        ensures written { OnOk result (Answers self.old.written self.new.written) }
    {
        if self.failed {
            return Err(LogFault::NotReached);
        }
        self.failed = true;
        read_whole(&mut self.reader, &mut self.held)?;
        let is_line = heed(
            &self.held,
            self.sid,
            self.last,
            &mut self.writer,
            &mut self.out,
            line,
        )?;
        if is_line {
            self.last += 1;
        }
        self.failed = false;
        Ok(is_line)
    }
}

impl<R: BufRead + Drop, W: KnownWriter + Drop> Partition for JetStream<R, W> {
    ghost use Rattle.std.specs.Prelude.{◌≡◌, ℕ, suc, List, Option, OnOk, OnErr};
    ghost use Rattle.pay_jetstream.specs.Asks.{Answers};
    ghost use Rattle.pay_jetstream.specs.Given.{IsGivenBy};
    ghost use Rattle.std.specs.Io.KnownBytes.{Appends};
    ghost use Rattle.pay_nats.specs.Requests.{request_bytes};
    ghost use Rattle.pay_follow.specs.Words.{publish, read_on};
    ghost use Rattle.pay_jetstream.specs.StreamParts.{origin_of, partition_of, reply_at};

    ghost Origin = { ℕ × Option (List ℕ) };

    ghost origin = { λ s. origin_of s };

    ghost HasLine = { λ origin place line. IsGivenBy origin place line };

    ghost parts = { λ s. partition_of s };

    // The trait's clauses, and what is written.
    fn read(&mut self, line: &mut Vec<u8>) -> Result<(), LogFault>
        ensures same { origin_of self.new ≡ origin_of self.old }
        ensures line { OnOk result (IsGivenBy (origin_of self.old) (suc (partition_of self.old).last) line.new.items) }
        ensures next { OnOk result (partition_of self.new ≡ read_on (partition_of self.old)) }
        ensures stays { OnErr result (partition_of self.new ≡ partition_of self.old) }
        ensures written { OnOk result (Answers self.old.written self.new.written) }
    {
        for _ in 0..MOST_FRAMES {
            if self.take_frame(line)? {
                return Ok(());
            }
        }
        Err(LogFault::NotReached)
    }

    // The trait's clauses, and what is written.
    fn publish(&mut self, reply: &[u8]) -> Result<(), LogFault>
        ensures same { origin_of self.new ≡ origin_of self.old }
        ensures published { OnOk result (partition_of self.new ≡ publish (partition_of self.old) reply.now) }
        ensures last { OnErr result (self.new.last ≡ self.old.last) }
        ensures written { OnOk result (Appends self.old.written self.new.written (request_bytes (reply_at self.old.answers self.old.last reply.now))) }
    {
        self.reply.clear();
        self.subject.clear();
        if put_subject(&mut self.subject, &self.answers, self.last).is_err()
            || self.reply.extend_from_slice(reply).is_err()
        {
            return Err(LogFault::Memory);
        }
        let request = Request::Publish(under(&self.subject, reply));
        write(&mut self.writer, &mut self.out, &request)?;
        self.published = Published::Then {
            earlier: Snapshot::of(&self.published),
            place: Snapshot::of(&self.last),
            reply: Snapshot::of(&self.reply),
        };
        Ok(())
    }

    fn last(&self) -> u64 {
        self.last
    }
}

/// Writes the subject of a place's reply at the end.
fn put_subject(out: &mut Vec<u8>, answers: &[u8], place: u64) -> Result<(), AllocError>
    ensures { OnOk result (out.new.items ≡ out.old.items ++ (answers.now ++ decimal place)) }
{
    out.extend_from_slice(answers)?;
    out.extend_from_slice(Buffer::new().format(place).as_bytes())
}

impl<R: BufRead, W: KnownWriter> JetStream<R, W> {
    /// A stream that is read on after a place, before the first frame for it. Replies are published under a subject that begins so and
    /// ends with the place.
    pub fn new(
        alloc: Global,
        reader: R,
        writer: W,
        answers: Vec<u8>,
        sid: u64,
        last: u64,
    ) -> JetStream<R, W>
        ensures { result ≡ record { sid = sid; answers = answers.items; sent = R.remaining reader; written = W.contents writer; last = last; published = [] } }
    {
        JetStream {
            began: Snapshot::of(&reader),
            reader,
            writer,
            held: Vec::new(alloc),
            out: Vec::new(alloc),
            answers,
            subject: Vec::new(alloc),
            reply: Vec::new(alloc),
            sid,
            last,
            failed: false,
            published: Published::None,
        }
    }
}
