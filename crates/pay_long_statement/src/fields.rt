//! The fields of a row, as texts.
ghost use Rattle.std.specs.Prelude.{◌≡◌, IfOk};
ghost use Rattle.std.specs.String.{string_bytes};
ghost use Rattle.pay_dates.specs.Words.{date_text_of};
ghost use Rattle.pay_day.specs.Words.{IsDay};
ghost use Rattle.pay_long_statement.specs.Text.{amount_text, kind_text, name_text, number_text, posted_text, signed_text, time_text};

use crate::row::{Amount, RowKind};
use pay_dates::{CalendarDay, DatedDay};
use pay_day::Moment;
use pay_explain::{Clock, Pounds};
use pay_money::Pence;
use pay_names::Names;
use std::alloc::{AllocError, Global};

/// The date of a service day.
pub fn date_text(alloc: Global, day: u32) -> Result<String, AllocError>
    requires { IsDay day }
    ensures { IfOk result (λ text. string_bytes text ≡ date_text_of day) }
{
    let date = CalendarDay(DatedDay::of(day));
    let mut text = String::new(alloc);
    write!(text, "{date}")?;
    Ok(text)
}

/// What a row tells, in a word.
pub fn kind_text(kind: RowKind) -> &'static str
    ensures { result.now ≡ kind_text kind }
{
    match kind {
        RowKind::Rail => "RAIL",
        RowKind::Same => "SAME",
        RowKind::Lone => "LONE",
        RowKind::Bus => "BUS",
        RowKind::Cap => "CAP",
        RowKind::WeekCap => "WEEKCAP",
        RowKind::Credit => "CREDIT",
        RowKind::Unused => "UNUSED",
        RowKind::Posted => "POSTED",
    }
}

/// The number of a place, if there is one.
pub fn number_text(alloc: Global, place: Option<u16>) -> Result<String, AllocError>
    ensures { IfOk result (λ text. string_bytes text ≡ number_text place) }
{
    let mut text = String::new(alloc);
    if let Some(number) = place {
        write!(text, "{number}")?;
    }
    Ok(text)
}

/// The name of a place, if it has one.
pub fn name_text(alloc: Global, names: &Names, place: Option<u16>) -> Result<String, AllocError>
    ensures { IfOk result (λ text. string_bytes text ≡ name_text names.now place) }
{
    let mut text = String::new(alloc);
    if let Some(number) = place {
        text.push_str(names.of(number).unwrap_or(""))?;
    }
    Ok(text)
}

/// What the clocks show at a moment, if there is one: `07:00:00`.
pub fn time_text(alloc: Global, moment: Option<Moment>) -> Result<String, AllocError>
    ensures { IfOk result (λ text. string_bytes text ≡ time_text moment) }
{
    let mut text = String::new(alloc);
    if let Some(moment) = moment {
        let clock = Clock(moment);
        write!(text, "{clock}")?;
    }
    Ok(text)
}

/// What is due, as `3.40`, or taken off, as `-1.30`.
pub fn amount_text(alloc: Global, amount: Amount) -> Result<String, AllocError>
    ensures { IfOk result (λ text. string_bytes text ≡ amount_text amount) }
{
    let mut text = String::new(alloc);
    match amount {
        Amount::Due(pence) => {
            let pounds = Pounds(pence);
            write!(text, "{pounds}")?;
        }
        Amount::Off(pence) => {
            let pounds = Pounds(pence);
            write!(text, "-{pounds}")?;
        }
        Amount::Posted(_) => {}
    }
    Ok(text)
}

/// What was posted.
pub fn posted_text(alloc: Global, amount: Amount) -> Result<String, AllocError>
    ensures { IfOk result (λ text. string_bytes text ≡ posted_text amount) }
{
    match amount {
        Amount::Posted(pence) => signed_text(alloc, pence),
        _ => Ok(String::new(alloc)),
    }
}

/// An amount in pence: `8.90`, and `-1.50` what was given back.
fn signed_text(alloc: Global, amount: i64) -> Result<String, AllocError>
    ensures { IfOk result (λ text. string_bytes text ≡ signed_text amount) }
{
    let pounds = Pounds(Pence::new(amount.unsigned_abs()));
    let mut text = String::new(alloc);
    if amount < 0 {
        write!(text, "-{pounds}")?;
    } else {
        write!(text, "{pounds}")?;
    }
    Ok(text)
}
