//! Streams of JetStream, and what is stored in them.

use crate::client::{Client, fault_of};
use crate::opening::about;
use pay_follow::LogFault;
use pay_jetstream_api::{
    ApiFault, Stream, StreamPlan, digests_text, last_text, read_stream, read_taken, stream_text,
};
use pay_wire::KnownWriter;
use std::alloc::Global;
use std::io::BufRead;

/// The number by which a second message under a subject is refused that may have one alone.
const SECOND: u64 = 10_077;

/// Makes a stream, where it is not there already, and says how it is. Refused where another has its name.
pub fn make_stream<R: BufRead + Drop, W: KnownWriter + Drop>(
    alloc: Global,
    client: &mut Client<R, W>,
    plan: &StreamPlan<'_>,
) -> Result<Stream, LogFault> {
    let Ok(text) = stream_text(alloc, plan) else {
        return Err(LogFault::Memory);
    };
    made(alloc, client, plan.name, text.as_str())
}

/// Makes a stream that has one message under each of its subjects, the first.
pub fn make_digests<R: BufRead + Drop, W: KnownWriter + Drop>(
    alloc: Global,
    client: &mut Client<R, W>,
    name: &str,
    subject: &str,
    replicas: u64,
) -> Result<Stream, LogFault> {
    let Ok(text) = digests_text(alloc, name, subject, replicas) else {
        return Err(LogFault::Memory);
    };
    made(alloc, client, name, text.as_str())
}

/// Has a stream made by this text.
fn made<R: BufRead + Drop, W: KnownWriter + Drop>(
    alloc: Global,
    client: &mut Client<R, W>,
    name: &str,
    text: &str,
) -> Result<Stream, LogFault> {
    let mut answer = Vec::new(alloc);
    let subject = about(alloc, "STREAM.CREATE.", name)?;
    client.ask(&subject, text.as_bytes(), &mut answer)?;
    match read_stream(alloc, &answer) {
        Ok(stream) => Ok(stream),
        Err(fault) => Err(fault_of(fault)),
    }
}

/// Has a message stored under a subject that may have one alone. Whether it was the first.
pub fn store<R: BufRead + Drop, W: KnownWriter + Drop>(
    alloc: Global,
    client: &mut Client<R, W>,
    subject: &str,
    message: &str,
) -> Result<bool, LogFault> {
    let mut answer = Vec::new(alloc);
    client.ask(subject.as_bytes(), message.as_bytes(), &mut answer)?;
    match read_taken(alloc, &answer) {
        Ok(()) => Ok(true),
        Err(ApiFault::Refused { code }) if code == SECOND => Ok(false),
        Err(fault) => Err(fault_of(fault)),
    }
}

/// The last message that a stream has under a subject.
pub fn last_message<R: BufRead + Drop, W: KnownWriter + Drop>(
    alloc: Global,
    client: &mut Client<R, W>,
    stream: &str,
    subject: &str,
    message: &mut Vec<u8>,
) -> Result<(), LogFault> {
    let Ok(text) = last_text(alloc, subject) else {
        return Err(LogFault::Memory);
    };
    let asked = about(alloc, "DIRECT.GET.", stream)?;
    client.ask(&asked, text.as_str().as_bytes(), message)
}
