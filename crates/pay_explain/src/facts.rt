//! What a day and a week come to, journey by journey and day by day, for whoever tells it in a form of its own.
ghost use Rattle.std.specs.Prelude.{◌≡◌, ◌≤◌, ◌+◌, ◌++◌, length, map, IfOk};
ghost use Rattle.std.specs.List.{zip};
ghost use Rattle.pay_day.specs.Words.{IsDay};
ghost use Rattle.pay_tables.specs.Words.{on};
ghost use Rattle.pay_rules.specs.declared.limits.TheConstants.{MOST_TOUCHES};
ghost use Rattle.pay_rules.specs.Prices.{journeys_on};
ghost use Rattle.pay_why.specs.Words.{bus_journeys, day_reason};
ghost use Rattle.pay_explain.specs.Facts.{AreDayFacts, AreDayFactsBy, AreWeekFacts, AreWeekFactsBy, AreWeekFactsOf, priced_by_sums};

use crate::journeys::{boardings_of, cells_on, rail_journeys};
use crate::week_days::{days_through, sums_of};
use pay_caps::{Cells, capped_price};
use pay_day::monday;
use pay_fix::{FixSet, effective};
use pay_money::Pence;
use pay_rules::{Journey, Touch};
use pay_tables::Editions;
use pay_taps::TapSet;
use pay_why::{CapReason, ListedJourney, day_reason, listed_journeys, week_reason};
use std::alloc::{AllocError, Global};

/// The journeys of an account, those of one service day among them, and why that day costs what it costs.
#[derive(Drop)]
pub struct DayFacts {
    /// All journeys by rail of the account, in their order.
    pub journeys: Vec<Journey>,
    /// All its boardings, in their order.
    pub boardings: Vec<Touch>,
    /// The journeys of the day, in the order of their first taps.
    pub list: Vec<ListedJourney>,
    /// Why the day costs what it costs.
    pub reason: CapReason,
}

/// A service day with what it costs, but for its maximum fares.
#[derive(Clone, Copy)]
pub struct PricedDay {
    /// The service day.
    pub day: u32,
    /// What it costs, but for its maximum fares.
    pub price: Pence,
}

/// The days of a week from Monday through a day, and why they cost what they cost together.
#[derive(Drop)]
pub struct WeekFacts {
    /// The days, from Monday on.
    pub days: Vec<PricedDay>,
    /// Why they cost what they cost together.
    pub reason: CapReason,
}

/// Why a service day costs what it costs, by all journeys by rail and all boardings of an account.
fn reason_on(editions: &Editions, journeys: &[Journey], boardings: &[Touch], day: u32) -> CapReason
    requires { length journeys.now + length boardings.now ≤ MOST_TOUCHES }
    ensures { result ≡ day_reason (on editions.now day) (journeys_on (journeys.now ++ bus_journeys editions.now boardings.now) day) }
{
    pay_why::laws::reasons_by_sums(editions);
    let cells = cells_on(editions, journeys, boardings, day);
    day_reason(editions.on(day), &cells)
}

/// The facts of a service day, by an account's effective taps in order.
#[tactic(auto, using(crate::proofs::Counts::both_kinds))]
fn facts_of_touches(
    alloc: Global,
    editions: &Editions,
    touches: &[Touch],
    day: u32,
) -> Result<DayFacts, AllocError>
    requires { length touches.now ≤ MOST_TOUCHES }
    ensures { IfOk result (AreDayFactsBy editions.now touches.now day) }
{
    let journeys = rail_journeys(alloc, editions, touches)?;
    let boardings = boardings_of(alloc, touches)?;
    let list = listed_journeys(alloc, editions, &journeys, &boardings, day)?;
    let reason = reason_on(editions, &journeys, &boardings, day);
    Ok(DayFacts {
        journeys,
        boardings,
        list,
        reason,
    })
}

/// The facts of a service day, by the accepted taps and corrections of an account. An `Err` is out of memory.
pub fn day_facts(
    alloc: Global,
    editions: &Editions,
    taps: &TapSet,
    fixes: &FixSet,
    day: u32,
) -> Result<DayFacts, AllocError>
    ensures { IfOk result (AreDayFacts editions.now (record { taps = taps.now; fixes = fixes.now }) day) }
{
    let touches = effective(alloc, taps, fixes)?;
    facts_of_touches(alloc, editions, &touches, day)
}

/// Days with their prices, each by the sums of its fares.
fn priced_days(
    alloc: Global,
    editions: &Editions,
    days: &[u32],
    sums: &[Cells],
) -> Result<Vec<PricedDay>, AllocError>
    requires { length days.now ≡ length sums.now }
    ensures { IfOk result (λ list. list.items ≡ map (priced_by_sums editions.now) (zip days.now sums.now)) }
{
    let mut list = Vec::with_capacity(alloc, days.len())?;
    for place in 0..days.len() {
        let day = days[place];
        let price = capped_price(editions.on(day), &sums[place]).0;
        list.push(PricedDay { day, price })?;
    }
    Ok(list)
}

/// The facts of a week through a day, by all journeys by rail and all boardings of an account.
fn week_of_journeys(
    alloc: Global,
    editions: &Editions,
    journeys: &[Journey],
    boardings: &[Touch],
    through: u32,
) -> Result<WeekFacts, AllocError>
    requires few { length journeys.now + length boardings.now ≤ MOST_TOUCHES }
    requires is_day { IsDay through }
    ensures { IfOk result (AreWeekFactsBy editions.now (journeys.now ++ bus_journeys editions.now boardings.now) through) }
{
    pay_caps::laws::day_prices(editions);
    pay_why::laws::reasons_by_sums(editions);
    let days = days_through(alloc, through)?;
    let sums = sums_of(alloc, editions, journeys, boardings, &days)?;
    let priced = priced_days(alloc, editions, &days, &sums)?;
    let reason = week_reason(editions, monday(through), &days, &sums);
    Ok(WeekFacts {
        days: priced,
        reason,
    })
}

/// The facts of a day's week through that day, by an account's effective taps in order.
#[tactic(auto, using(crate::proofs::Counts::both_kinds))]
fn week_of_touches(
    alloc: Global,
    editions: &Editions,
    touches: &[Touch],
    through: u32,
) -> Result<WeekFacts, AllocError>
    requires few { length touches.now ≤ MOST_TOUCHES }
    requires is_day { IsDay through }
    ensures { IfOk result (AreWeekFactsOf editions.now touches.now through) }
{
    let journeys = rail_journeys(alloc, editions, touches)?;
    let boardings = boardings_of(alloc, touches)?;
    week_of_journeys(alloc, editions, &journeys, &boardings, through)
}

/// The facts of a day's week through that day, by the accepted taps and corrections of an account. An `Err` is out of memory.
pub fn week_facts(
    alloc: Global,
    editions: &Editions,
    taps: &TapSet,
    fixes: &FixSet,
    through: u32,
) -> Result<WeekFacts, AllocError>
    requires { IsDay through }
    ensures { IfOk result (AreWeekFacts editions.now (record { taps = taps.now; fixes = fixes.now }) through) }
{
    let touches = effective(alloc, taps, fixes)?;
    week_of_touches(alloc, editions, &touches, through)
}
