//! The fields of a line of `STATS`.
ghost use Rattle.std.specs.Prelude.{◌≡◌, option_copied, option_map};
ghost use Rattle.std.specs.Char.{is_ascii_digit};
ghost use Rattle.std.specs.List.{list_all};
ghost use Rattle.pay_metrics.specs.Fields.{after, are_fields, fields_of, is_equals, is_field, is_number, parted};

use crate::limits::MOST_DIGITS;

/// What stands behind a front that a text begins with.
pub(crate) fn after<'a>(text: &'a str, front: &str) -> Option<&'a str>
    ensures { option_copied result ≡ after front.now text.now }
{
    text.strip_prefix(front)
}

/// What stands before the first `=` and behind it, if there is one.
#[tactic(auto, unfolding(crate::specs::Fields::parted))]
pub(crate) fn parted(text: &str) -> Option<(&str, &str)>
    ensures { option_map (λ it. (it.0.now, it.1.now)) result ≡ parted text.now }
{
    text.split_once('=')
}

fn are_digits(text: &[u8]) -> bool
    ensures { result ≡ list_all is_ascii_digit text.now }
{
    text.iter().all(|byte| byte.is_ascii_digit())
}

/// Whether a text is a number: 1 to 20 digits.
pub(crate) fn is_number(text: &str) -> bool
    ensures { result ≡ is_number text.now }
{
    text.len() >= 1 && text.len() <= MOST_DIGITS && are_digits(text.as_bytes())
}

/// Whether a text is a name, `=` and a number.
fn is_field(text: &str) -> bool
    ensures { result ≡ is_field text.now }
{
    match parted(text) {
        Some((_, number)) => is_number(number),
        None => false,
    }
}

/// Whether a text is such fields, with one space between them.
fn are_fields(text: &str) -> bool
    ensures { result ≡ are_fields text.now }
{
    text.split(' ').all(|field| is_field(field))
}

/// The fields of a line of `STATS`, if it is one.
pub(crate) fn fields_of(line: &str) -> Option<&str>
    ensures { option_copied result ≡ fields_of line.now }
{
    let fields = after(line, "STATS ")?;
    if are_fields(fields) {
        Some(fields)
    } else {
        None
    }
}
