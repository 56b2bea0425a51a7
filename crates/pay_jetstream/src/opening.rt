//! A partition of a log is opened in a stream of JetStream.
ghost use Rattle.std.specs.Prelude.{◌≡◌, ◌++◌, [], ◌∷◌, codes, IfOk, OnOk};
ghost use Rattle.pay_jetstream_api.specs.Words.{stream_seen};
ghost use Rattle.pay_jetstream.specs.Asks.{Asks};
ghost use Rattle.pay_jetstream.specs.Opening.{had, lines_sid, opening, stream_request};

use crate::client::{Client, fault_of};
use crate::jet_stream::JetStream;
use crate::writing::write;
use pay_follow::LogFault;
use pay_jetstream_api::{Stream, consumer_text, read_stream, read_taken};
use pay_nats::Request;
use pay_wire::KnownWriter;
use std::alloc::Global;
use std::io::BufRead;

/// The number of the subscription to lines.
const LINES: u64 = 2;

/// Which stream a partition is, and what it has to say of itself.
#[derive(Clone, Copy)]
pub struct PartitionPlan<'a> {
    /// The stream's name.
    pub stream: &'a str,
    /// Its description.
    pub description: &'a str,
    /// How the subjects begin under which replies are published; the place follows.
    pub answers: &'a str,
    /// The subject under which lines are delivered, which nobody else has.
    pub deliver: &'a str,
}

/// Whether a stream is that of a plan, and has all that was read up to a place.
pub fn is_had(stream: &Stream, description: &str, last: u64) -> Result<(), LogFault>
    ensures { result ≡ had (stream_seen stream.now) description.now last }
{
    if stream.description.as_str() != description {
        return Err(LogFault::Other);
    }
    if stream.first > 1 {
        return Err(LogFault::Cut {
            first: stream.first,
        });
    }
    if stream.last < last {
        return Err(LogFault::Short {
            read: last,
            ends: stream.last,
        });
    }
    Ok(())
}

/// The subject of what JetStream is asked for about a stream.
pub(crate) fn about(alloc: Global, asked: &str, stream: &str) -> Result<Vec<u8>, LogFault>
    ensures { IfOk result (λ subject. subject.items ≡ codes "$JS.API." ++ (asked.now ++ stream.now)) }
{
    let mut subject = Vec::new(alloc);
    if subject.extend_from_slice(b"$JS.API.").is_err()
        || subject.extend_from_slice(asked.as_bytes()).is_err()
        || subject.extend_from_slice(stream.as_bytes()).is_err()
    {
        return Err(LogFault::Memory);
    }
    Ok(subject)
}

/// How the stream of a name is.
pub fn stream_at<R: BufRead + Drop, W: KnownWriter + Drop>(
    alloc: Global,
    client: &mut Client<R, W>,
    stream: &str,
) -> Result<Stream, LogFault>
    ensures written { OnOk result (Asks (stream_request client.old.inbox.items stream.now ∷ []) (W.contents client.old.writer) (W.contents client.new.writer)) }
    ensures inbox { client.new.inbox ≡ client.old.inbox }
{
    let mut answer = Vec::new(alloc);
    let subject = about(alloc, "STREAM.INFO.", stream)?;
    client.ask(&subject, &[], &mut answer)?;
    match read_stream(alloc, &answer) {
        Ok(stream) => Ok(stream),
        Err(fault) => Err(fault_of(fault)),
    }
}

/// Opens the partition of a plan, of which the line after a place is to be read next.
pub fn open_partition<R: BufRead + Drop, W: KnownWriter + Drop>(
    alloc: Global,
    mut client: Client<R, W>,
    plan: &PartitionPlan<'_>,
    last: u64,
) -> Result<JetStream<R, W>, LogFault>
    ensures sid { IfOk result (λ it. it.sid ≡ lines_sid) }
    ensures last { IfOk result (λ it. it.last ≡ last) }
    ensures none { IfOk result (λ it. it.published ≡ []) }
    ensures answers { IfOk result (λ it. it.answers ≡ plan.now.answers.now) }
    ensures written { IfOk result (λ it. Asks (opening client.inbox.items plan.now.stream.now plan.now.deliver.now last) (W.contents client.writer) it.written) }
{
    let stream = stream_at(alloc, &mut client, plan.stream)?;
    is_had(&stream, plan.description, last)?;
    let Some(next) = last.checked_add(1) else {
        return Err(LogFault::NotUnderstood);
    };
    let Ok(text) = consumer_text(alloc, plan.stream, plan.deliver, next) else {
        return Err(LogFault::Memory);
    };
    let mut answer = Vec::new(alloc);
    let subject = about(alloc, "CONSUMER.CREATE.", plan.stream)?;
    client.ask(&subject, text.as_str().as_bytes(), &mut answer)?;
    if let Err(fault) = read_taken(alloc, &answer) {
        return Err(fault_of(fault));
    }
    let lines = Request::Subscribe {
        subject: plan.deliver.as_bytes(),
        sid: LINES,
    };
    write(&mut client.writer, &mut client.out, &lines)?;
    let mut answers = Vec::new(alloc);
    if answers.extend_from_slice(plan.answers.as_bytes()).is_err() {
        return Err(LogFault::Memory);
    }
    let Client { reader, writer, .. } = client;
    Ok(JetStream::new(alloc, reader, writer, answers, LINES, last))
}
