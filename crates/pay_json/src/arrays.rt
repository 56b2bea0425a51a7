//! Arrays, an object at a time, and what stands in objects as a text of its own.
ghost use Rattle.std.specs.Prelude.{◌≡◌, ◌++◌, IfOk, OnOk};
ghost use Rattle.std.specs.String.{string_bytes};
ghost use Rattle.serde_json.specs.Written.{comma_if};
ghost use Rattle.pay_dates.specs.Words.{date_text_of};
ghost use Rattle.pay_json.specs.Values.{in_brackets, is_some_text};

use pay_dates::{CalendarDay, DatedDay};
use std::alloc::{AllocError, Global};

/// Adds a comma, if there is an object before.
pub fn push_comma(text: &mut String) -> Result<(), AllocError>
    ensures { OnOk result (string_bytes text.new ≡ string_bytes text.old ++ comma_if (is_some_text (string_bytes text.old))) }
{
    if !text.is_empty() {
        text.push_str(",")?;
    }
    Ok(())
}

/// An array of objects.
#[tactic(auto, unfolding(crate::specs::Values::in_brackets))]
pub fn in_brackets(alloc: Global, objects: &str) -> Result<String, AllocError>
    ensures { IfOk result (λ text. string_bytes text ≡ in_brackets objects.now) }
{
    let mut text = String::new(alloc);
    write!(text, "[{objects}]")?;
    Ok(text)
}

/// The date of a day.
pub fn date_of(alloc: Global, day: DatedDay) -> Result<String, AllocError>
    ensures { IfOk result (λ text. string_bytes text ≡ date_text_of day.day) }
{
    let date = CalendarDay(day);
    let mut text = String::new(alloc);
    write!(text, "{date}")?;
    Ok(text)
}
