//! What a server says of a stream.
ghost use Rattle.std.specs.Prelude.{◌≡◌, ◌≢◌, Ok, Err, IfOk, MatchResult, option_copied, option_map, string_bytes};
ghost use Rattle.serde_json.specs.View.{view};
ghost use Rattle.pay_jetstream_api.specs.Answers.{counts_in, description_in, leader_in, stream_of, stream_seen};
ghost use Rattle.pay_jetstream_api.specs.StreamNumbers.{numbers_in};
ghost use Rattle.pay_jetstream_api.specs.declared.fault.ApiFault.TheVariants.{Memory};

use crate::answer::taken_in;
use crate::fault::ApiFault;
use crate::value::{number_at, text_at, value_of};
use serde_json::Value;
use std::alloc::{AllocError, Global};

/// A stream, as the server says it is.
#[derive(Debug, PartialEq, Drop)]
pub struct Stream {
    /// What it was made with, and nothing where it was made with none.
    pub description: String,
    /// The place of the first message that it has. Where it has none, it is one more than `last`, or 0 before the first.
    pub first: u64,
    /// The place of the last message that it took, or 0 before the first.
    pub last: u64,
    /// On how many servers it is kept.
    pub replicas: u64,
    /// The server that leads it, if there is one that is known.
    pub leader: Option<String>,
}

/// The numbers of a stream.
#[derive(Clone, Copy)]
struct Counts {
    first: u64,
    last: u64,
    replicas: u64,
}

/// Reads the answer to `STREAM.INFO` and to `STREAM.CREATE`.
pub fn read_stream(alloc: Global, text: &[u8]) -> Result<Stream, ApiFault>
    ensures { MatchResult result (λ stream. stream_of text.now ≡ Ok (stream_seen stream)) (λ fault. fault ≢ Memory → stream_of text.now ≡ Err fault) }
{
    let answer = value_of(alloc, text)?;
    let counts = counts_in(&answer)?;
    let description = String::from_str(alloc, description_in(&answer))?;
    let leader = owned(alloc, leader_in(&answer))?;
    Ok(Stream {
        description,
        first: counts.first,
        last: counts.last,
        replicas: counts.replicas,
        leader,
    })
}

/// The numbers of a stream, if the answer is no refusal.
fn counts_in(answer: &Value) -> Result<Counts, ApiFault>
    ensures { result ≡ counts_in (view answer.now) }
{
    taken_in(answer)?;
    numbers_in(answer).ok_or(ApiFault::NotUnderstood)
}

/// The numbers of a stream, if they are all there.
#[tactic(auto, unfolding(crate::specs::StreamNumbers::numbers_in))]
fn numbers_in(answer: &Value) -> Option<Counts>
    ensures { result ≡ numbers_in (view answer.now) }
{
    Some(Counts {
        first: number_at(answer, "/state/first_seq")?,
        last: number_at(answer, "/state/last_seq")?,
        replicas: number_at(answer, "/config/num_replicas")?,
    })
}

/// What a stream was made with.
fn description_in(answer: &Value) -> &str
    ensures { result.now ≡ description_in (view answer.now) }
{
    text_at(answer, "/config/description").unwrap_or("")
}

/// The server that leads it.
fn leader_in(answer: &Value) -> Option<&str>
    ensures { option_copied result ≡ leader_in (view answer.now) }
{
    text_at(answer, "/cluster/leader")
}

/// A copy of a text, if there is one.
fn owned(alloc: Global, text: Option<&str>) -> Result<Option<String>, AllocError>
    ensures { IfOk result (λ copy. option_map string_bytes copy ≡ option_copied text.entry) }
{
    match text {
        Some(text) => Ok(Some(String::from_str(alloc, text)?)),
        None => Ok(None),
    }
}
