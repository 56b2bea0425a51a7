//! Numbers by their decimal digits, without leading zeros.
ghost use Rattle.std.specs.Prelude.{◌≡◌, decimal};
ghost use Rattle.std.specs.Str.{bytes_eq};
ghost use Rattle.pay_numeral.specs.Numerals.{if_numeral, number_of};

use itoa::Buffer;
use std::str;

/// The number whose decimal digits a word is, if it has up to 64 bits.
#[tactic(auto, using(crate::proofs::Numbered::no_text))]
pub fn number_of(word: &[u8]) -> Option<u64>
    ensures { result ≡ number_of word.now }
{
    match str::from_utf8(word) {
        Ok(text) => number_in(text),
        Err(_) => None,
    }
}

/// The same of a text.
fn number_in(word: &str) -> Option<u64>
    ensures { result ≡ number_of word.now }
{
    if_numeral(word.as_bytes(), word.parse::<u64>().ok()?)
}

/// A number, if a word is its digits.
fn if_numeral(word: &[u8], number: u64) -> Option<u64>
    ensures { result ≡ if_numeral word.now number }
{
    if is_numeral(word, number) {
        Some(number)
    } else {
        None
    }
}

fn is_numeral(word: &[u8], number: u64) -> bool
    ensures { result ≡ bytes_eq word.now (decimal number) }
{
    word == Buffer::new().format(number).as_bytes()
}
