//! Why a day was charged, and its week, by what an account has accepted.
ghost use Rattle.std.specs.Prelude.{◌≡◌, ◌≤◌, ◌+◌, length, IfOk};
ghost use Rattle.std.specs.String.{string_bytes};
ghost use Rattle.pay_day.specs.Words.{IsDay};
ghost use Rattle.pay_rules.specs.declared.limits.TheConstants.{MOST_TOUCHES};
ghost use Rattle.pay_explain.specs.Explained.{text_of_journeys, text_of_touches, explained_day, week_of_touches, explained_week};

use crate::corrections::push_corrections;
use crate::day::day_text;
use crate::journeys::{boardings_of, cells_on, rail_journeys};
use crate::week_days::week_text;
use pay_fix::{FixSet, effective};
use pay_names::Names;
use pay_rules::{Journey, Touch};
use pay_tables::Editions;
use pay_taps::TapSet;
use pay_why::day_reason;
use std::alloc::{AllocError, Global};

/// The text of a service day, by all journeys by rail and all boardings of an account.
fn text_of_journeys(
    alloc: Global,
    names: &Names,
    editions: &Editions,
    journeys: &[Journey],
    boardings: &[Touch],
    day: u32,
) -> Result<String, AllocError>
    requires { length journeys.now + length boardings.now ≤ MOST_TOUCHES }
    ensures { IfOk result (λ text. string_bytes text ≡ text_of_journeys names.now editions.now journeys.now boardings.now day) }
{
    pay_why::laws::reasons_by_sums(editions);
    let cells = cells_on(editions, journeys, boardings, day);
    let reason = day_reason(editions.on(day), &cells);
    day_text(alloc, names, editions, journeys, boardings, day, &reason)
}

/// The text of a service day, by an account's effective taps in order.
#[tactic(auto, using(crate::proofs::Counts::both_kinds))]
fn text_of_touches(
    alloc: Global,
    names: &Names,
    editions: &Editions,
    touches: &[Touch],
    day: u32,
) -> Result<String, AllocError>
    requires { length touches.now ≤ MOST_TOUCHES }
    ensures { IfOk result (λ text. string_bytes text ≡ text_of_touches names.now editions.now touches.now day) }
{
    let journeys = rail_journeys(alloc, editions, touches)?;
    let boardings = boardings_of(alloc, touches)?;
    text_of_journeys(alloc, names, editions, &journeys, &boardings, day)
}

/// Why a service day was charged, by the accepted taps and corrections of an account: a line for each journey
/// of that day, in the order of their first taps, those of its sums, and one for each correction about the day, or
/// that names nothing: what it does now. Places are told by their names and numbers. An `Err` is out of memory.
pub fn explained_day(
    alloc: Global,
    names: &Names,
    editions: &Editions,
    taps: &TapSet,
    fixes: &FixSet,
    day: u32,
) -> Result<String, AllocError>
    ensures { IfOk result (λ text. string_bytes text ≡ explained_day names.now editions.now (record { taps = taps.now; fixes = fixes.now }) day) }
{
    let touches = effective(alloc, taps, fixes)?;
    let mut text = text_of_touches(alloc, names, editions, &touches, day)?;
    push_corrections(&mut text, names, taps, fixes, day)?;
    Ok(text)
}

/// The text of a day's week through that day, by an account's effective taps in order and its corrections.
#[tactic(auto, using(crate::proofs::Counts::both_kinds))]
fn week_of_touches(
    alloc: Global,
    editions: &Editions,
    touches: &[Touch],
    fixes: &FixSet,
    through: u32,
) -> Result<String, AllocError>
    requires few { length touches.now ≤ MOST_TOUCHES }
    requires is_day { IsDay through }
    ensures { IfOk result (λ text. string_bytes text ≡ week_of_touches editions.now touches.now fixes.now through) }
{
    let journeys = rail_journeys(alloc, editions, touches)?;
    let boardings = boardings_of(alloc, touches)?;
    week_text(alloc, editions, &journeys, &boardings, fixes, through)
}

/// Why a day's week was charged through that day, by the accepted taps and corrections of an account: a line
/// for each of its days from Monday on, those of the week's sums, one for each Credit that counts, and what is
/// due. An `Err` is out of memory.
pub fn explained_week(
    alloc: Global,
    editions: &Editions,
    taps: &TapSet,
    fixes: &FixSet,
    through: u32,
) -> Result<String, AllocError>
    requires { IsDay through }
    ensures { IfOk result (λ text. string_bytes text ≡ explained_week editions.now (record { taps = taps.now; fixes = fixes.now }) through) }
{
    let touches = effective(alloc, taps, fixes)?;
    week_of_touches(alloc, editions, &touches, fixes, through)
}
