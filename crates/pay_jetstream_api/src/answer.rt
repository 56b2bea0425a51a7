//! Whether a server did what was asked, and where it put what was published.
ghost use Rattle.std.specs.Prelude.{◌≡◌, ◌≢◌, Ok, Err, MatchResult};
ghost use Rattle.serde_json.specs.View.{view};
ghost use Rattle.pay_jetstream_api.specs.Answers.{code_in, place_in, place_of, taken_in, taken_of};
ghost use Rattle.pay_jetstream_api.specs.declared.fault.ApiFault.TheVariants.{Memory};

use crate::fault::ApiFault;
use crate::value::{number_at, value_of};
use serde_json::Value;
use std::alloc::Global;

/// Reads any answer: whether the server did what was asked. An answer is an object, and one with an `error` is a refusal.
pub fn read_taken(alloc: Global, text: &[u8]) -> Result<(), ApiFault>
    ensures { MatchResult result (λ it. taken_of text.now ≡ Ok it) (λ fault. fault ≢ Memory → taken_of text.now ≡ Err fault) }
{
    let answer = value_of(alloc, text)?;
    taken_in(&answer)
}

/// Reads the acknowledgement of a publication: its place in the stream.
pub fn read_place(alloc: Global, text: &[u8]) -> Result<u64, ApiFault>
    ensures { MatchResult result (λ place. place_of text.now ≡ Ok place) (λ fault. fault ≢ Memory → place_of text.now ≡ Err fault) }
{
    let answer = value_of(alloc, text)?;
    place_in(&answer)
}

/// Whether the server did what was asked.
pub(crate) fn taken_in(answer: &Value) -> Result<(), ApiFault>
    ensures { result ≡ taken_in (view answer.now) }
{
    if !answer.is_object() {
        Err(ApiFault::NotUnderstood)
    } else if answer.get("error").is_some() {
        Err(ApiFault::Refused {
            code: code_in(answer),
        })
    } else {
        Ok(())
    }
}

/// The code of an answer's error, and 0 where it has none.
fn code_in(answer: &Value) -> u64
    ensures { result ≡ code_in (view answer.now) }
{
    number_at(answer, "/error/err_code").unwrap_or(0)
}

/// The place of a publication.
fn place_in(answer: &Value) -> Result<u64, ApiFault>
    ensures { result ≡ place_in (view answer.now) }
{
    taken_in(answer)?;
    number_at(answer, "/seq").ok_or(ApiFault::NotUnderstood)
}
