//! A line of a staff file.
ghost use Rattle.std.specs.Prelude.{◌≡◌, ◌≤◌, length, option_copied, option_map, IfSome};
ghost use Rattle.std.specs.Char.{is_ascii_uppercase, is_control};
ghost use Rattle.std.specs.List.{list_any};
ghost use Rattle.std.specs.Str.{chars};
ghost use Rattle.pay_clerks.specs.Lines.{clerk_of_line, clerk_of_row, digest_of, has_gap, if_name, is_name, is_name_length, is_skipped, is_space, limit_of, staff_of};
ghost use Rattle.pay_clerks.specs.Parts.{parted};
ghost use Rattle.pay_clerks.specs.declared.limits.TheConstants.{MOST_LIMIT};

use crate::limits::{MOST_LIMIT, MOST_NAME, MOST_STAFF};
use crate::numeral::number_within;
use hex::FromHex;

/// What a line says of a clerk.
#[derive(Drop)]
pub(crate) struct Row<'a> {
    pub staff: u16,
    pub limit: u32,
    pub secret: [u8; 32],
    pub name: &'a str,
}

/// Whether a line says nothing: it is empty, or begins with `#`.
pub(crate) fn is_skipped(line: &[u8]) -> bool
    ensures { result ≡ is_skipped line.now }
{
    matches!(line, [] | [b'#', ..])
}

/// What a line says of a clerk, if it is a clerk's.
pub(crate) fn row_of(line: &str) -> Option<Row<'_>>
    ensures row { option_map clerk_of_row result ≡ clerk_of_line line.now }
    ensures first { IfSome result (λ row. 1 ≤ row.staff) }
    ensures most { IfSome result (λ row. row.limit ≤ MOST_LIMIT) }
{
    let (staff, rest) = parted(line)?;
    let (limit, rest) = parted(rest)?;
    let (secret, name) = parted(rest)?;
    Some(Row {
        staff: staff_of(staff)?,
        limit: limit_of(limit)?,
        secret: digest_of(secret)?,
        name: if_name(name)?,
    })
}

/// What stands before the first space and after it, if there is one.
fn parted(text: &str) -> Option<(&str, &str)>
    ensures { option_map (λ it. (it.0.now, it.1.now)) result ≡ parted is_space text.now }
{
    text.split_once(' ')
}

/// The staff number that a word is.
fn staff_of(word: &str) -> Option<u16>
    ensures value { result ≡ staff_of word.now }
    ensures first { IfSome result (λ staff. 1 ≤ staff) }
{
    Some(number_within(word, 1, MOST_STAFF)? as u16)
}

/// The limit that a word is.
fn limit_of(word: &str) -> Option<u32>
    ensures value { result ≡ limit_of word.now }
    ensures most { IfSome result (λ limit. limit ≤ MOST_LIMIT) }
{
    number_within(word, 0, MOST_LIMIT)
}

/// The digest that a word is: 64 hexadecimal digits, none of them a capital.
fn digest_of(word: &str) -> Option<[u8; 32]>
    ensures { result ≡ digest_of word.now }
{
    if has_capital(word.as_bytes()) {
        None
    } else {
        <[u8; 32]>::from_hex(word).ok()
    }
}

fn has_capital(word: &[u8]) -> bool
    ensures { result ≡ list_any is_ascii_uppercase word.now }
{
    word.iter().any(|byte| byte.is_ascii_uppercase())
}

/// A text, if it is a name.
fn if_name(text: &str) -> Option<&str>
    ensures { option_copied result ≡ if_name text.now }
{
    if is_name(text) { Some(text) } else { None }
}

/// Whether a text is a name: up to 64 characters, none of them a control character, and words with one space between them.
fn is_name(text: &str) -> bool
    ensures { result ≡ is_name text.now }
{
    has_length(text) && !has_control(text) && !has_gap(text)
}

#[tactic(auto, using(std::proofs::lemmas::Str::chars_from_encodes))]
fn has_length(text: &str) -> bool
    ensures { result ≡ is_name_length (length (chars text.now)) }
{
    text.chars().count() <= MOST_NAME
}

fn has_control(text: &str) -> bool
    ensures { result ≡ list_any is_control (chars text.now) }
{
    text.chars().any(|c| c.is_control())
}

/// Whether no word stands at the front, at the end, or between two spaces.
fn has_gap(text: &str) -> bool
    ensures { result ≡ has_gap text.now }
{
    text.split(' ').any(|word| word.is_empty())
}
