//! What is found in a value of JSON.
ghost use Rattle.std.specs.Prelude.{◌≡◌, ◌≢◌, Ok, Err, MatchResult, option_copied};
ghost use Rattle.serde_json.specs.Errors.{IsMemory};
ghost use Rattle.serde_json.specs.View.{view};
ghost use Rattle.pay_jetstream_api.specs.Finding.{is_said, number_at, text_at, value_of};
ghost use Rattle.pay_jetstream_api.specs.declared.fault.ApiFault.TheVariants.{Memory, NotUnderstood};

use crate::fault::ApiFault;
use serde_json::{Error, Value};
use std::alloc::Global;

/// The value that a text is.
#[tactic(auto, using(crate::proofs::Read::as_value))]
pub(crate) fn value_of(alloc: Global, text: &[u8]) -> Result<Value, ApiFault>
    ensures { MatchResult result (λ value. value_of text.now ≡ Ok (view value)) (λ fault. fault ≢ Memory → value_of text.now ≡ Err fault) }
{
    match Value::from_slice(alloc, text) {
        Ok(value) => Ok(value),
        Err(error) => Err(fault_of(&error)),
    }
}

/// Why a text is no value.
fn fault_of(error: &Error) -> ApiFault
    ensures memory { IsMemory error.now → result ≡ Memory }
    ensures other { ¬ IsMemory error.now → result ≡ NotUnderstood }
{
    if error.is_memory() {
        ApiFault::Memory
    } else {
        ApiFault::NotUnderstood
    }
}

/// The whole number at a JSON pointer, if there is one of up to 64 bits.
#[tactic(auto, unfolding(crate::specs::Finding::number_at))]
pub(crate) fn number_at(value: &Value, path: &str) -> Option<u64>
    ensures { result ≡ number_at path.now (view value.now) }
{
    value.pointer(path).and_then(Value::as_u64)
}

/// The text at a JSON pointer, if there is one.
#[tactic(auto, unfolding(crate::specs::Finding::text_at))]
pub(crate) fn text_at<'a>(value: &'a Value, path: &str) -> Option<&'a str>
    ensures { option_copied result ≡ text_at path.now (view value.now) }
{
    value.pointer(path).and_then(Value::as_str)
}

/// Whether `true` stands at a JSON pointer.
#[tactic(auto, unfolding(crate::specs::Finding::is_said))]
pub(crate) fn is_said(value: &Value, path: &str) -> bool
    ensures { result ≡ is_said path.now (view value.now) }
{
    value
        .pointer(path)
        .and_then(Value::as_bool)
        .unwrap_or(false)
}
