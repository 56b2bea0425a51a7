//! Numbers by their decimal digits, without leading zeros.
ghost use Rattle.std.specs.Prelude.{◌≡◌, ◌≤◌, decimal, IfSome};
ghost use Rattle.std.specs.Str.{bytes_eq};
ghost use Rattle.pay_clerks.specs.Numerals.{if_within, number_within};

use itoa::Buffer;

/// The number of a range whose decimal digits a word is.
pub(crate) fn number_within(word: &str, first: u32, last: u32) -> Option<u32>
    ensures value { result ≡ number_within first last word.now }
    ensures first { IfSome result (λ number. first ≤ number) }
    ensures last { IfSome result (λ number. number ≤ last) }
{
    if_within(word, word.parse::<u32>().ok()?, first, last)
}

/// A number, if it is in a range, and a word is its digits.
fn if_within(word: &str, number: u32, first: u32, last: u32) -> Option<u32>
    ensures value { result ≡ if_within first last word.now number }
    ensures first { IfSome result (λ number. first ≤ number) }
    ensures last { IfSome result (λ number. number ≤ last) }
{
    if first <= number && number <= last && is_numeral_of(word.as_bytes(), number) {
        Some(number)
    } else {
        None
    }
}

/// Whether a word is the decimal digits of a number.
pub(crate) fn is_numeral_of(word: &[u8], number: u32) -> bool
    ensures { result ≡ bytes_eq word.now (decimal number) }
{
    word == Buffer::new().format(number).as_bytes()
}
