//! What a server sends.
use thiserror::Error;

/// A message that was published under a subject to which the client has subscribed.
#[derive(Clone, Copy, Debug, PartialEq, Eq)]
pub struct Message<'a> {
    /// The subject under which it was published.
    pub subject: &'a [u8],
    /// The number of the subscription.
    pub sid: u64,
    /// The subject to which an answer goes, if one is wanted.
    pub reply: Option<&'a [u8]>,
    /// Its headers, if it has any: a whole block, from `NATS/1.0` to the empty line.
    pub headers: Option<&'a [u8]>,
    /// What was published.
    pub payload: &'a [u8],
}

/// What a server sends, one at a time.
#[derive(Clone, Copy, Debug, PartialEq, Eq)]
pub enum Frame<'a> {
    /// `INFO`: what the server is, in JSON.
    Info(&'a [u8]),
    /// `MSG`, or `HMSG` where there are headers: a message.
    Message(Message<'a>),
    /// `PING`: wants a `PONG`.
    Ping,
    /// `PONG`: the answer to a `PING`.
    Pong,
    /// `+OK`: a request was taken.
    Done,
    /// `-ERR`: a request was not taken, with the reason. The server may close the connection.
    Fault(&'a [u8]),
}

/// Why some bytes are not the begin of a frame, whatever follows.
#[derive(Clone, Copy, Debug, PartialEq, Eq, Error)]
pub enum FrameFault {
    /// A line is no server's.
    #[error("a line that no server sends")]
    Line,
    /// A line is longer than it may be.
    #[error("a line that is too long")]
    LongLine,
    /// A message has more bytes than it may have.
    #[error("a message that is too long")]
    LongPayload,
    /// No CR LF stands after the payload.
    #[error("a payload without an end")]
    Unended,
}
