//! Why a week was charged through a day, as a text.
ghost use Rattle.std.specs.Prelude.{◌≡◌, ◌≤◌, ◌+◌, ◌++◌, length, map, All, IfOk, OnOk};
ghost use Rattle.std.specs.List.{flat_map, zip};
ghost use Rattle.std.specs.String.{string_bytes};
ghost use Rattle.pay_day.specs.Words.{IsDay};
ghost use Rattle.pay_day.specs.declared.limits.TheConstants.{DAYS_PER_WEEK};
ghost use Rattle.pay_rules.specs.declared.limits.TheConstants.{MOST_TOUCHES};
ghost use Rattle.pay_rules.specs.Prices.{days_through};
ghost use Rattle.pay_explain.specs.Cells.{cells_on};
ghost use Rattle.pay_why.specs.Words.{bus_journeys};
ghost use Rattle.pay_explain.specs.Week.{credit_text, day_line_of, due_lines, reason_lines, week_text, week_text_of};

use crate::journeys::cells_on;
use crate::week::{CreditLine, DayLine, DueLines, WeekSums};
use pay_caps::{Cells, capped_price};
use pay_dates::DatedDay;
use pay_day::monday;
use pay_fix::FixSet;
use pay_money::Pence;
use pay_rules::{Fix, Journey, Touch};
use pay_tables::Editions;
use pay_why::{CapReason, counted_credits, due_reason, week_reason};
use std::alloc::{AllocError, Global};

/// The days of a day's week from Monday through that day.
pub fn days_through(alloc: Global, through: u32) -> Result<Vec<u32>, AllocError>
    requires { IsDay through }
    ensures { IfOk result (λ days. days.items ≡ days_through through) }
{
    let from = monday(through);
    let mut days = Vec::new(alloc);
    for place in 0..through + 1 - from {
        days.push(from + place)?;
    }
    Ok(days)
}

/// The sums of the fares of days, each by all journeys by rail and all boardings of an account.
pub fn sums_of(
    alloc: Global,
    editions: &Editions,
    journeys: &[Journey],
    boardings: &[Touch],
    days: &[u32],
) -> Result<Vec<Cells>, AllocError>
    requires { length journeys.now + length boardings.now ≤ MOST_TOUCHES }
    ensures { IfOk result (λ sums. sums.items ≡ map (cells_on editions.now journeys.now boardings.now) days.now) }
{
    let mut sums = Vec::with_capacity(alloc, days.len())?;
    for day in days {
        sums.push(cells_on(editions, journeys, boardings, *day))?;
    }
    Ok(sums)
}

/// Adds the line of a day: what it costs by the sums of its fares, but for its maximum fares.
fn push_day(
    text: &mut String,
    editions: &Editions,
    day: u32,
    cells: &Cells,
) -> Result<(), AllocError>
    requires { IsDay day }
    ensures { OnOk result (string_bytes text.new ≡ string_bytes text.old ++ day_line_of editions.now (day, cells.now)) }
{
    let line = DayLine {
        day: DatedDay::of(day),
        price: capped_price(editions.on(day), cells).0,
    };
    write!(text, "{line}")?;
    Ok(())
}

/// Adds the lines of days, each by the sums of its fares.
fn push_days(
    text: &mut String,
    editions: &Editions,
    days: &[u32],
    sums: &[Cells],
) -> Result<(), AllocError>
    requires beside { length days.now ≡ length sums.now }
    requires are_days { All IsDay days.now }
    ensures { OnOk result (string_bytes text.new ≡ string_bytes text.old ++ flat_map (day_line_of editions.now) (zip days.now sums.now)) }
{
    for place in 0..sums.len() {
        push_day(text, editions, days[place], &sums[place])?;
    }
    Ok(())
}

/// Adds the lines of Credits.
fn push_credits(text: &mut String, credits: &[Fix]) -> Result<(), AllocError>
    ensures { OnOk result (string_bytes text.new ≡ string_bytes text.old ++ flat_map credit_text credits.now) }
{
    for credit in credits {
        let line = CreditLine(*credit);
        write!(text, "{line}")?;
    }
    Ok(())
}

/// Adds the lines of the Credits that count, and of what is due of a week that costs so much.
fn push_due(
    alloc: Global,
    text: &mut String,
    fixes: &FixSet,
    through: u32,
    price: Pence,
) -> Result<(), AllocError>
    requires { IsDay through }
    ensures { OnOk result (string_bytes text.new ≡ string_bytes text.old ++ due_lines fixes.now through price) }
{
    let credits = counted_credits(alloc, fixes, through)?;
    push_credits(text, &credits)?;
    let due = DueLines(due_reason(price, fixes, through));
    write!(text, "{due}")?;
    Ok(())
}

/// Adds the lines of a week's reason, of the Credits that count, and of what is due.
fn push_reason(
    alloc: Global,
    text: &mut String,
    reason: &CapReason,
    fixes: &FixSet,
    through: u32,
) -> Result<(), AllocError>
    requires { IsDay through }
    ensures { OnOk result (string_bytes text.new ≡ string_bytes text.old ++ reason_lines reason.now fixes.now through) }
{
    let lines = WeekSums(*reason);
    write!(text, "{lines}")?;
    push_due(alloc, text, fixes, through, reason.price)?;
    Ok(())
}

/// The text of a day's week through that day, by the sums of the fares of its days.
fn text_of_sums(
    alloc: Global,
    editions: &Editions,
    days: &[u32],
    sums: &[Cells],
    fixes: &FixSet,
    through: u32,
) -> Result<String, AllocError>
    requires beside { length days.now ≡ length sums.now }
    requires few { length sums.now ≤ DAYS_PER_WEEK }
    requires are_days { All IsDay days.now }
    requires is_day { IsDay through }
    ensures { IfOk result (λ text. string_bytes text ≡ week_text_of editions.now (zip days.now sums.now) fixes.now through) }
{
    let reason = week_reason(editions, monday(through), days, sums);
    let mut text = String::new(alloc);
    push_days(&mut text, editions, days, sums)?;
    push_reason(alloc, &mut text, &reason, fixes, through)?;
    Ok(text)
}

/// Why a day's week was charged through that day: a line for each of its days from Monday on, those of the
/// week's sums, one for each Credit that counts, and what is due. An `Err` is out of memory.
///
/// `journeys` are all journeys by rail of an account, and `boardings` all its boardings, each in their
/// order.
pub fn week_text(
    alloc: Global,
    editions: &Editions,
    journeys: &[Journey],
    boardings: &[Touch],
    fixes: &FixSet,
    through: u32,
) -> Result<String, AllocError>
    requires few { length journeys.now + length boardings.now ≤ MOST_TOUCHES }
    requires is_day { IsDay through }
    ensures { IfOk result (λ text. string_bytes text ≡ week_text editions.now (journeys.now ++ bus_journeys editions.now boardings.now) fixes.now through) }
{
    pay_caps::laws::day_prices(editions);
    pay_why::laws::reasons_by_sums(editions);
    let days = days_through(alloc, through)?;
    let sums = sums_of(alloc, editions, journeys, boardings, &days)?;
    text_of_sums(alloc, editions, &days, &sums, fixes, through)
}
