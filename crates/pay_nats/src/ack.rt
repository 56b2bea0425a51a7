//! Where a message stands in its stream.
ghost use Rattle.std.specs.Prelude.{◌≡◌, Some, option_copied, option_map, IfSome};
ghost use Rattle.pay_nats.specs.AckReading.{ack_at, ack_in, without_prefix, counts_of, number_before};
ghost use Rattle.pay_nats.specs.Acks.{AckOf, IsAck, ack_subject, acked};

use crate::parts::parted;
use pay_numeral::number_of;

/// What the subject says to which a message of a stream is acknowledged: `$JS.ACK.stream.consumer.delivered.place.consumer_place.time.pending`.
#[derive(Clone, Copy, Debug, PartialEq, Eq)]
pub struct Ack<'a> {
    /// The stream.
    pub stream: &'a [u8],
    /// The consumer, by which the message was delivered.
    pub consumer: &'a [u8],
    /// How often the message was delivered, this time included.
    pub delivered: u64,
    /// The place of the message in the stream, from 1.
    pub place: u64,
    /// Its place among those that the consumer delivered, from 1.
    pub consumer_place: u64,
    /// When the stream took it, in nanoseconds of the Unix clock.
    pub time: u64,
    /// How many messages of the stream follow.
    pub pending: u64,
}

/// The numbers of such a subject.
#[derive(Clone, Copy)]
struct Counts {
    delivered: u64,
    place: u64,
    consumer_place: u64,
    time: u64,
    pending: u64,
}

/// What a subject says, if it is one for acknowledgements.
pub fn ack_of(subject: &[u8]) -> Option<Ack<'_>>
    ensures found { IfSome result (λ it. IsAck (acked it) × (subject.now ≡ ack_subject (acked it))) }
    ensures whole { (it : AckOf) → IsAck it → subject.now ≡ ack_subject it → option_map acked result ≡ Some it }
{
    ack_at(subject)
}

/// The same, a token at a time.
fn ack_at(subject: &[u8]) -> Option<Ack<'_>>
    ensures { option_map acked result ≡ ack_at subject.now }
{
    ack_in(without_prefix(subject)?)
}

/// What stands after the first two tokens, if they are those.
fn without_prefix(subject: &[u8]) -> Option<&[u8]>
    ensures { option_copied result ≡ without_prefix subject.now }
{
    subject.strip_prefix(b"$JS.ACK.")
}

/// The names and the numbers after `$JS.ACK.`.
#[tactic(auto, unfolding(crate::specs::AckReading::ack_in))]
fn ack_in(text: &[u8]) -> Option<Ack<'_>>
    ensures { option_map acked result ≡ ack_in text.now }
{
    let (stream, rest) = parted(text, b'.')?;
    let (consumer, rest) = parted(rest, b'.')?;
    let counts = counts_of(rest)?;
    Some(Ack {
        stream,
        consumer,
        delivered: counts.delivered,
        place: counts.place,
        consumer_place: counts.consumer_place,
        time: counts.time,
        pending: counts.pending,
    })
}

#[tactic(auto, unfolding(crate::specs::AckReading::counts_of))]
fn counts_of(text: &[u8]) -> Option<Counts>
    ensures { result ≡ counts_of text.now }
{
    let (delivered, rest) = number_before(text)?;
    let (place, rest) = number_before(rest)?;
    let (consumer_place, rest) = number_before(rest)?;
    let (time, rest) = number_before(rest)?;
    Some(Counts {
        delivered,
        place,
        consumer_place,
        time,
        pending: number_of(rest)?,
    })
}

/// The number before the first dot, and what stands after it.
#[tactic(auto, unfolding(crate::specs::AckReading::number_before))]
fn number_before(text: &[u8]) -> Option<(u64, &[u8])>
    ensures { option_map (λ it. (it.0, it.1.now)) result ≡ number_before text.now }
{
    let (token, rest) = parted(text, b'.')?;
    Some((number_of(token)?, rest))
}
