//! What a posted form says.
ghost use Rattle.std.specs.Prelude.{◌≡◌, option_map, IfSome};
ghost use Rattle.pay_web.specs.Asked.{IsAsked};
ghost use Rattle.pay_web.specs.Forms.{asked_in, at_colon, fix_form, fix_words, form_in, form_of, form_start, in_two, number_of, second_alone, second_by, second_of, second_with, tap_form, tap_words, two};

use crate::asked::{Asked, asked_by_values, value_of};

/// What the form says that makes a correction: `seq=S&token=T&what=W`.
#[derive(Clone, Copy)]
pub(crate) struct FixForm<'a> {
    /// The correction's number among those of the clerk.
    pub seq: u32,
    /// What only a form of this page has.
    pub token: &'a str,
    /// What the correction does, with a plus for each space.
    pub what: &'a str,
}

/// What the form says that adds a tap: `time=T&place=P&kind=K`.
#[derive(Clone, Copy)]
pub(crate) struct TapForm<'a> {
    /// The local second of the day.
    pub second: u32,
    /// The station, or the route of a bus.
    pub place: &'a str,
    /// `IN`, `OUT` or `BUS`.
    pub kind: &'a str,
}

/// What a form begins with: `account=A&day=D&`, and the rest.
#[derive(Clone, Copy)]
pub(crate) struct FormStart<'a> {
    /// The account and the day.
    pub asked: Asked,
    /// What stands after them.
    pub rest: &'a str,
}

/// What a form begins with.
pub(crate) fn form_of(body: &[u8]) -> Option<FormStart<'_>>
    ensures form { option_map form_start result ≡ form_of body.now }
    ensures in_range { IfSome result (λ form. IsAsked form.asked) }
{
    match str::from_utf8(body) {
        Ok(text) => form_in(text),
        Err(_) => None,
    }
}

/// The same of a text.
fn form_in(text: &str) -> Option<FormStart<'_>>
    ensures form { option_map form_start result ≡ form_in text.now }
    ensures in_range { IfSome result (λ form. IsAsked form.asked) }
{
    let account = in_two(text)?;
    let day = in_two(account.rest)?;
    let asked = asked_in(account.front, day.front)?;
    Some(FormStart {
        asked,
        rest: day.rest,
    })
}

/// A text in two.
#[derive(Clone, Copy)]
struct Two<'a> {
    front: &'a str,
    rest: &'a str,
}

/// A text in two, at its first ampersand.
#[tactic(auto, unfolding(crate::specs::Forms::in_two))]
fn in_two(text: &str) -> Option<Two<'_>>
    ensures { option_map two result ≡ in_two text.now }
{
    match text.split_once('&') {
        Some((front, rest)) => Some(Two { front, rest }),
        None => None,
    }
}

/// A text in two, at its first colon, which is sent as `%3A`.
#[tactic(auto, unfolding(crate::specs::Forms::at_colon))]
fn at_colon(text: &str) -> Option<Two<'_>>
    ensures { option_map two result ≡ at_colon text.now }
{
    let (front, rest) = text.split_once('%')?;
    let rest = value_of(rest, "3A")?;
    Some(Two { front, rest })
}

/// The account and the day of two fields.
#[tactic(auto, unfolding(crate::specs::Forms::asked_in))]
fn asked_in(account: &str, day: &str) -> Option<Asked>
    ensures asked { result ≡ asked_in account.now day.now }
    ensures in_range { IfSome result IsAsked }
{
    asked_by_values(account, day, false)
}

/// What the form says that makes a correction, after the account and the day.
pub(crate) fn fix_form(rest: &str) -> Option<FixForm<'_>>
    ensures { option_map fix_words result ≡ fix_form rest.now }
{
    let first = in_two(rest)?;
    let second = in_two(first.rest)?;
    let seq = number_of(value_of(first.front, "seq=")?)?;
    let token = value_of(second.front, "token=")?;
    let what = value_of(second.rest, "what=")?;
    Some(FixForm { seq, token, what })
}

/// What the form says that adds a tap, after the account and the day.
pub(crate) fn tap_form(rest: &str) -> Option<TapForm<'_>>
    ensures { option_map tap_words result ≡ tap_form rest.now }
{
    let first = in_two(rest)?;
    let second = in_two(first.rest)?;
    let time = second_of(value_of(first.front, "time=")?)?;
    let place = value_of(second.front, "place=")?;
    let kind = value_of(second.rest, "kind=")?;
    Some(TapForm {
        second: time,
        place,
        kind,
    })
}

/// The second of a day that a browser sends as `08%3A10` or `08%3A10%3A05`: colons are sent so.
fn second_of(time: &str) -> Option<u32>
    ensures { result ≡ second_of time.now }
{
    let time = at_colon(time)?;
    let hour = number_of(time.front)?;
    match at_colon(time.rest) {
        None => second_alone(hour, time.rest),
        Some(minute) => second_with(hour, minute.front, minute.rest),
    }
}

/// The second of a day by its hour, and the text of its minute.
fn second_alone(hour: u32, minute: &str) -> Option<u32>
    ensures { result ≡ second_alone hour minute.now }
{
    second_by(hour, number_of(minute)?, 0)
}

/// The second of a day by its hour, and the texts of its minute and second.
fn second_with(hour: u32, minute: &str, second: &str) -> Option<u32>
    ensures { result ≡ second_with hour minute.now second.now }
{
    second_by(hour, number_of(minute)?, number_of(second)?)
}

/// The second of a day by its hour, minute and second, if these are in their ranges.
fn second_by(hour: u32, minute: u32, second: u32) -> Option<u32>
    ensures { result ≡ second_by hour minute second }
{
    if hour < 24 && minute < 60 && second < 60 {
        Some(hour * 3600 + minute * 60 + second)
    } else {
        None
    }
}

/// A number of 32 bits.
fn number_of(text: &str) -> Option<u32>
    ensures { result ≡ number_of text.now }
{
    text.parse::<u32>().ok()
}
