//! A text that is no document, and the line of it.
ghost use Rattle.std.specs.Prelude.{◌≡◌, ◌≢◌, ◌≤◌, length, take, count_by, nat_eq};
ghost use Rattle.toml.specs.Errors.{IsMemory, IsWithin, span_start};
ghost use Rattle.pay_fare_file.specs.declared.fault.FareFileFault.TheVariants.{NotToml};
ghost use Rattle.pay_fare_file.specs.declared.misread.Misread.TheVariants.{At, Memory};
ghost use Rattle.pay_fare_file.specs.declared.spot.FaultPlace.TheVariants.{Line};
ghost use Rattle.pay_fare_file.specs.FaultPlaces.{IsNoDocument, line_of};

use pay_fare_file::{FareFileFault, FaultPlace, Misread};
use toml::de;

/// Why a text is no document: out of memory, or the line where the error begins.
pub fn no_document(text: &str, error: de::Error) -> Misread<FaultPlace>
    requires { IsWithin text.now error }
    ensures memory { IsMemory error → result ≡ Memory }
    ensures line { ¬ IsMemory error → result ≡ At (Line (line_of text.now (span_start error))) NotToml }
    ensures within { ¬ IsMemory error → IsNoDocument text.now result }
{
    match error.span() {
        Some(span) => {
            let line = line_of(text, span.start);
            Misread::At(FaultPlace::Line(line), FareFileFault::NotToml)
        }
        None => Misread::Memory,
    }
}

/// The line, counted from 1, in which a byte of a text stands.
fn line_of(text: &str, start: usize) -> usize
    requires { start ≤ length text.now }
    ensures { result ≡ line_of text.now start }
{
    newlines(&text.as_bytes()[..start]) + 1
}

/// How many newlines there are.
fn newlines(bytes: &[u8]) -> usize
    ensures value { result ≡ count_by (nat_eq 10) bytes.now }
    ensures few { result ≤ length bytes.now }
{
    bytes.iter().filter(|byte| **byte == b'\n').count()
}
