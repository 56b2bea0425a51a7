//! What a client asks of a server.
ghost use Rattle.std.specs.Prelude.{◌≡◌, ◌++◌, length, take, decimal, codes, option_copied, [], OnOk, OnErr};
ghost use Rattle.pay_nats.specs.Lines.{crlf, with_h, with_word, content, content_sizes};
ghost use Rattle.pay_nats.specs.Requests.{asked, published, publish_bytes, publish_line, request_bytes, subscribe_line, unsubscribe_line};

use itoa::Buffer;
use std::alloc::AllocError;

/// Something that a client publishes.
#[derive(Clone, Copy, Debug, PartialEq, Eq)]
pub struct Publication<'a> {
    /// The subject under which it is published.
    pub subject: &'a [u8],
    /// The subject to which an answer goes, if one is wanted.
    pub reply: Option<&'a [u8]>,
    /// Its headers, if it has any: a whole block, from `NATS/1.0` to the empty line.
    pub headers: Option<&'a [u8]>,
    /// What is published.
    pub payload: &'a [u8],
}

/// What a client asks of a server.
#[derive(Clone, Copy, Debug, PartialEq, Eq)]
pub enum Request<'a> {
    /// The first request: says what the client can do.
    Connect,
    /// Wants a `PONG`.
    Ping,
    /// Answers a `PING`.
    Pong,
    /// From now on, messages under a subject are sent to the client, with this number.
    Subscribe { subject: &'a [u8], sid: u64 },
    /// No more messages with this number are wanted.
    Unsubscribe { sid: u64 },
    /// Publishes something.
    Publish(Publication<'a>),
}

const CONNECT: &[u8] =
    b"CONNECT {\"verbose\":false,\"pedantic\":false,\"headers\":true,\"no_responders\":true,\"lang\":\"rattle\",\"version\":\"0\",\"protocol\":1}\r\n";

/// Writes a request at the end. Without memory nothing is written.
pub fn write_request(out: &mut Vec<u8>, request: &Request<'_>) -> Result<(), AllocError>
    ensures ok { OnOk result (out.new.items ≡ out.old.items ++ request_bytes (asked request.now)) }
    ensures err { OnErr result (out.new.items ≡ out.old.items) }
{
    let before = out.len();
    let written = push_request(out, request);
    if written.is_err() {
        out.truncate(before);
    }
    written
}

/// The same, where a part may be written without memory for the rest.
fn push_request(out: &mut Vec<u8>, request: &Request<'_>) -> Result<(), AllocError>
    ensures ok { OnOk result (out.new.items ≡ out.old.items ++ request_bytes (asked request.now)) }
    ensures kept { take (length out.old.items) out.new.items ≡ out.old.items }
{
    match request {
        Request::Connect => out.extend_from_slice(CONNECT),
        Request::Ping => out.extend_from_slice(b"PING\r\n"),
        Request::Pong => out.extend_from_slice(b"PONG\r\n"),
        Request::Subscribe { subject, sid } => push_subscribe(out, subject, *sid),
        Request::Unsubscribe { sid } => push_unsubscribe(out, *sid),
        Request::Publish(it) => push_publication(out, it),
    }
}

fn push_number(out: &mut Vec<u8>, number: u64) -> Result<(), AllocError>
    ensures ok { OnOk result (out.new.items ≡ out.old.items ++ decimal number) }
    ensures kept { take (length out.old.items) out.new.items ≡ out.old.items }
{
    out.extend_from_slice(Buffer::new().format(number).as_bytes())
}

fn push_subscribe(out: &mut Vec<u8>, subject: &[u8], sid: u64) -> Result<(), AllocError>
    ensures ok { OnOk result (out.new.items ≡ out.old.items ++ (subscribe_line subject.now sid ++ crlf)) }
    ensures kept { take (length out.old.items) out.new.items ≡ out.old.items }
{
    out.extend_from_slice(b"SUB ")?;
    out.extend_from_slice(subject)?;
    out.extend_from_slice(b" ")?;
    push_number(out, sid)?;
    out.extend_from_slice(b"\r\n")
}

fn push_unsubscribe(out: &mut Vec<u8>, sid: u64) -> Result<(), AllocError>
    ensures ok { OnOk result (out.new.items ≡ out.old.items ++ (unsubscribe_line sid ++ crlf)) }
    ensures kept { take (length out.old.items) out.new.items ≡ out.old.items }
{
    out.extend_from_slice(b"UNSUB ")?;
    push_number(out, sid)?;
    out.extend_from_slice(b"\r\n")
}

/// Writes the line of a publication, and its content.
fn push_publication(out: &mut Vec<u8>, it: &Publication<'_>) -> Result<(), AllocError>
    ensures ok { OnOk result (out.new.items ≡ out.old.items ++ publish_bytes (published it.now)) }
    ensures kept { take (length out.old.items) out.new.items ≡ out.old.items }
{
    push_publish_line(out, it)?;
    out.extend_from_slice(b"\r\n")?;
    push_content(out, it.headers, it.payload)?;
    out.extend_from_slice(b"\r\n")
}

/// Writes the line of a publication, without its CR LF.
fn push_publish_line(out: &mut Vec<u8>, it: &Publication<'_>) -> Result<(), AllocError>
    ensures ok { OnOk result (out.new.items ≡ out.old.items ++ publish_line (published it.now)) }
    ensures kept { take (length out.old.items) out.new.items ≡ out.old.items }
{
    out.extend_from_slice(verb_of(it.headers))?;
    out.extend_from_slice(it.subject)?;
    out.extend_from_slice(b" ")?;
    push_reply(out, it.reply)?;
    push_sizes(out, it.headers, it.payload)
}

fn verb_of(headers: Option<&[u8]>) -> &'static [u8]
    ensures { result.now ≡ with_h (option_copied headers.entry) (codes "PUB ") }
{
    match headers {
        Some(_) => b"HPUB ",
        None => b"PUB ",
    }
}

/// Writes the subject for an answer and a space, if there is one.
fn push_reply(out: &mut Vec<u8>, reply: Option<&[u8]>) -> Result<(), AllocError>
    ensures ok { OnOk result (out.new.items ≡ out.old.items ++ with_word (option_copied reply.entry) []) }
    ensures kept { take (length out.old.items) out.new.items ≡ out.old.items }
{
    match reply {
        Some(reply) => {
            out.extend_from_slice(reply)?;
            out.extend_from_slice(b" ")
        }
        None => Ok(()),
    }
}

/// Writes how many bytes the headers have, if there are any, and how many there are in all.
fn push_sizes(out: &mut Vec<u8>, headers: Option<&[u8]>, payload: &[u8]) -> Result<(), AllocError>
    ensures ok { OnOk result (out.new.items ≡ out.old.items ++ content_sizes (option_copied headers.entry) payload.now) }
    ensures kept { take (length out.old.items) out.new.items ≡ out.old.items }
{
    match headers {
        Some(headers) => {
            push_number(out, headers.len() as u64)?;
            out.extend_from_slice(b" ")?;
            push_number(out, headers.len() as u64 + payload.len() as u64)
        }
        None => push_number(out, payload.len() as u64),
    }
}

/// Writes the headers, if there are any, and the payload.
fn push_content(out: &mut Vec<u8>, headers: Option<&[u8]>, payload: &[u8]) -> Result<(), AllocError>
    ensures ok { OnOk result (out.new.items ≡ out.old.items ++ content (option_copied headers.entry) payload.now) }
    ensures kept { take (length out.old.items) out.new.items ≡ out.old.items }
{
    if let Some(headers) = headers {
        out.extend_from_slice(headers)?;
    }
    out.extend_from_slice(payload)
}
