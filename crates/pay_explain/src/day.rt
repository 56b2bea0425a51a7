//! Why a day was charged, as a text.
ghost use Rattle.std.specs.Prelude.{◌≡◌, ◌++◌, IfOk, OnOk};
ghost use Rattle.std.specs.List.{flat_map};
ghost use Rattle.std.specs.String.{string_bytes};
ghost use Rattle.pay_explain.specs.Day.{line_bytes, lines_text, day_text};

use crate::lines::{Line, NamedLine, line_of};
use crate::sums::DaySums;
use pay_names::Names;
use pay_rules::{Journey, Touch};
use pay_tables::Editions;
use pay_why::{CapReason, ListedJourney, listed_journeys};
use std::alloc::{AllocError, Global};

/// Adds the line of a journey, where it has one.
fn push_line(text: &mut String, names: &Names, line: &Option<Line>) -> Result<(), AllocError>
    ensures { OnOk result (string_bytes text.new ≡ string_bytes text.old ++ line_bytes names.now line.now) }
{
    if let Some(line) = line {
        let line = NamedLine { names, line: *line };
        write!(text, "{line}\n")?;
    }
    Ok(())
}

/// Adds the lines of journeys.
fn push_lines(
    text: &mut String,
    names: &Names,
    editions: &Editions,
    journeys: &[Journey],
    boardings: &[Touch],
    list: &[ListedJourney],
) -> Result<(), AllocError>
    ensures { OnOk result (string_bytes text.new ≡ string_bytes text.old ++ lines_text names.now editions.now journeys.now boardings.now list.now) }
{
    for listed in list {
        push_line(text, names, &line_of(editions, journeys, boardings, listed))?;
    }
    Ok(())
}

/// Why a service day was charged: a line for each of its journeys, in the order of their first taps, and then
/// those of its sums. An `Err` is out of memory.
///
/// `journeys` are all journeys by rail of an account, and `boardings` all its boardings, each in their
/// order. `reason` is that of the day.
pub fn day_text(
    alloc: Global,
    names: &Names,
    editions: &Editions,
    journeys: &[Journey],
    boardings: &[Touch],
    day: u32,
    reason: &CapReason,
) -> Result<String, AllocError>
    ensures { IfOk result (λ text. string_bytes text ≡ day_text names.now editions.now journeys.now boardings.now day reason.now) }
{
    let list = listed_journeys(alloc, editions, journeys, boardings, day)?;
    let mut text = String::new(alloc);
    push_lines(&mut text, names, editions, journeys, boardings, &list)?;
    let sums = DaySums(*reason);
    write!(text, "{sums}")?;
    Ok(text)
}
