//! Numbers as they stand in a line.
ghost use Rattle.std.specs.Prelude.{◌≡◌, ◌+◌, ◌≤◌, ◌<◌, false, length, get_or, take, option_map};
ghost use Rattle.std.specs.Char.{is_ascii_digit};
ghost use Rattle.std.specs.Str.Parse.{AllDigits, digits_value};
ghost use Rattle.pay_wire.specs.Fields.{words, words_after, ends_word, field};
ghost use Rattle.pay_wire.specs.Numbers.{number_of, is_plain};

use crate::limits::MOST_NUMBER;

/// No number of a line has more digits.
const MOST_DIGITS: usize = 10;

/// The number that the first word of a line spells in decimal digits, and what follows the word. It has
/// no sign and no leading zero, `0` itself apart, and is at most [`MOST_NUMBER`]. `None` is a word that
/// spells no such number.
pub fn read_number(line: &[u8]) -> Option<(u32, &[u8])>
    ensures { option_map (λ x. (x.0, words_after x.1.now)) result ≡ field number_of (words line.now) }
{
    let (value, end) = leading_digits(line);
    if value > MOST_NUMBER {
        return None;
    }
    let (digits, rest) = line.split_at(end);
    if is_plain(digits) && ends_word(rest) {
        Some((value as u32, rest))
    } else {
        None
    }
}

/// There are bytes, and no zero stands before another.
fn is_plain(word: &[u8]) -> bool
    ensures { result ≡ is_plain word.now }
{
    !matches!(word, [] | [b'0', _, ..])
}

/// A word ends where nothing follows, or a space.
fn ends_word(rest: &[u8]) -> bool
    ensures { result ≡ ends_word rest.now }
{
    matches!(rest, [] | [b' ', ..])
}

/// The number that the digits before any other byte spell, and how many they are. No more are read than a
/// number of a line may have.
fn leading_digits(line: &[u8]) -> (u64, usize)
    ensures within { result.1 ≤ length line.now }
    ensures digits { AllDigits 10 (take result.1 line.now) }
    ensures value { result.0 ≡ digits_value 10 (take result.1 line.now) }
    ensures end { result.1 < MOST_DIGITS → result.1 < length line.now → is_ascii_digit (get_or line.now result.1 0) ≡ false }
{
    let mut value: u64 = 0;
    let most = line.len().min(MOST_DIGITS);
    for i in 0..most {
        let digit = digit_of(line[i]);
        if digit > 9 {
            return (value, i);
        }
        value = value * 10 + digit;
    }
    (value, most)
}

/// What a byte stands for as a digit, and more than 9 where it is none.
fn digit_of(byte: u8) -> u64
    ensures value { result ≤ 9 → result + 48 ≡ byte }
    ensures none { 9 < result → is_ascii_digit byte ≡ false }
{
    u64::from(byte).wrapping_sub(u64::from(b'0'))
}
