//! The sums of the fares of each day on which a journey began.
ghost use Rattle.std.specs.Prelude.{◌≡◌, ◌≤◌, ◌+◌, ◌*◌, ℕ, List, [], ◌∷◌, ◌++◌, length, map, IsSome, Some, cond, OnOk};
ghost use Rattle.std.specs.List.{zip};
ghost use Rattle.pay_day.specs.Words.{IsDay};
ghost use Rattle.pay_day.specs.declared.limits.TheConstants.{DAYS_PER_WEEK};
ghost use Rattle.pay_money.specs.declared.limits.TheConstants.{MOST_MONEY};
ghost use Rattle.pay_tables.specs.declared.limits.TheConstants.{MOST_FARE};
ghost use Rattle.pay_tables.specs.Words.{on};
ghost use Rattle.pay_caps.specs.Words.{cell_of, sum_at, total, all_added, all_taken};
ghost use Rattle.pay_week.specs.Words.{sums_of_days};
ghost use Rattle.pay_rules.specs.JourneyFares.{fare_by};
ghost use Rattle.pay_rules.specs.WeekPrices.{DayJourneys, week_price};
ghost use Rattle.pay_rules.specs.declared.journey.Journey.{Journey};
ghost use Rattle.pay_rules.specs.Prices.{journeys_on, price_of_day, price_of_week, prices_of_journeys};
ghost use Rattle.pay_book.specs.Days.{stored_on, sums_on, day_of, AreSummed, AreSums, AreThere, CanReplace, HaveRoomFor, StaySummed};

use crate::day_sums::DaySums;
use pay_caps::{Cells, cell_of, fare};
use pay_day::limits::DAYS_PER_WEEK;
use pay_day::monday;
use pay_money::Pence;
use pay_rules::{Journey, Priced};
use pay_tables::Editions;
use std::alloc::AllocError;

/// Keeps sums of the day of each of these journeys, and changes none. An `Err` is out of memory.
pub(crate) fn open_all(days: &mut DaySums, journeys: &[Journey]) -> Result<(), AllocError>
    ensures same { (other : ℕ) → sums_on days.new other ≡ sums_on days.old other }
    ensures held { StaySummed days.old days.new }
    ensures open { OnOk result (AreSummed days.new journeys.now) }
{
    for journey in journeys {
        days.open(journey.first_tap().stamp.day())?;
    }
    Ok(())
}

/// Adds the fare of a journey to the sums of its day.
fn add(days: &mut DaySums, editions: &Editions, journey: &Journey)
    requires held { IsSome (stored_on days.old (day_of journey.now)) }
    requires fits { HaveRoomFor days.old MOST_FARE }
    ensures sums { (day : ℕ) → sums_on days.new day ≡ all_added (on editions.now day) (journeys_on (journey.now ∷ []) day) (sums_on days.old day) }
    ensures in_range { (day : ℕ) → total (sums_on days.new day) ≤ total (sums_on days.old day) + MOST_FARE }
    ensures held { StaySummed days.old days.new }
{
    pay_caps::laws::day_prices(editions);
    let day = journey.first_tap().stamp.day();
    let tables = editions.on(day);
    days.add(day, cell_of(tables, journey), fare(tables, journey));
}

/// Takes the fare of a journey from the sums of its day.
fn take(days: &mut DaySums, editions: &Editions, journey: &Journey)
    requires held { IsSome (stored_on days.old (day_of journey.now)) }
    requires there { fare_by editions.now journey.now ≤ sum_at (cell_of (on editions.now (day_of journey.now)) journey.now) (sums_on days.old (day_of journey.now)) }
    ensures sums { (day : ℕ) → sums_on days.new day ≡ all_taken (on editions.now day) (journeys_on (journey.now ∷ []) day) (sums_on days.old day) }
    ensures held { StaySummed days.old days.new }
{
    pay_caps::laws::day_prices(editions);
    let day = journey.first_tap().stamp.day();
    let tables = editions.on(day);
    days.take(day, cell_of(tables, journey), fare(tables, journey));
}

/// Adds the fares of journeys to the sums of their days.
pub(crate) fn add_all(days: &mut DaySums, editions: &Editions, journeys: &[Journey])
    requires held { AreSummed days.old journeys.now }
    requires fits { HaveRoomFor days.old (length journeys.now * MOST_FARE) }
    ensures sums { (day : ℕ) → sums_on days.new day ≡ all_added (on editions.now day) (journeys_on journeys.now day) (sums_on days.old day) }
    ensures held { StaySummed days.old days.new }
{
    for journey in journeys {
        add(days, editions, journey);
    }
}

/// Takes the fares of journeys from the sums of their days.
pub(crate) fn take_all(days: &mut DaySums, editions: &Editions, journeys: &[Journey])
    requires held { AreSummed days.old journeys.now }
    requires there { AreThere editions.now days.old journeys.now }
    ensures sums { (day : ℕ) → sums_on days.new day ≡ all_taken (on editions.now day) (journeys_on journeys.now day) (sums_on days.old day) }
    ensures held { StaySummed days.old days.new }
{
    for journey in journeys {
        take(days, editions, journey);
    }
}

/// Takes the fares of some journeys from the sums of their days, and adds those of others in their place.
pub(crate) fn replace(days: &mut DaySums, editions: &Editions, old: &[Journey], new: &[Journey])
    requires { CanReplace editions.now days.old old.now new.now }
    ensures { (left right : List Journey) → AreSums editions.now days.old (left ++ old.now ++ right) → AreSums editions.now days.new (left ++ new.now ++ right) }
{
    pay_caps::fare_laws::fares_within(editions);
    pay_caps::laws::day_prices(editions);
    pay_caps::laws::stretches(editions);
    take_all(days, editions, old);
    add_all(days, editions, new);
}

/// The price of the week of a Monday, by those of its days that have any fares, each with its sums.
fn week_of(editions: &Editions, monday: u32, days: &[u32], week: &[Cells]) -> Pence
    requires beside { length days.now ≡ length week.now }
    requires few { length week.now ≤ DAYS_PER_WEEK }
    ensures { (lists : List DayJourneys) → zip days.now week.now ≡ sums_of_days editions.now lists → result ≡ week_price editions.now monday lists }
{
    pay_week::laws::week_prices(editions);
    pay_week::price_of_days(editions, monday, days, week)
}

/// The price of a service day, by what is kept of it.
fn day_of(editions: &Editions, days: &DaySums, day: u32) -> Pence
    ensures { (list : List Journey) → AreSums editions.now days.now list → result ≡ price_of_day editions.now list day }
{
    pay_caps::laws::day_prices(editions);
    pay_caps::laws::bounds();
    match days.get(day) {
        Some(cells) => pay_caps::day_price(editions.on(day), cells).0,
        None => Pence::ZERO,
    }
}

/// The price of a week through one of its days, by what is kept of them.
pub(crate) fn price_through(editions: &Editions, days: &DaySums, through: u32) -> Pence
    requires { IsDay through }
    ensures { (list : List Journey) → AreSums editions.now days.now list → result ≡ price_of_week editions.now list through }
{
    pay_week::laws::empty_days();
    let monday = monday(through);
    let (those, week) = days.of_days(monday, through + 1 - monday);
    week_of(editions, monday, those, week)
}

/// The price of a service day and of its week through Sunday, by what is kept of them.
pub(crate) fn prices(editions: &Editions, days: &DaySums, again: bool, day: u32) -> Priced
    requires { IsDay day }
    ensures { (list : List Journey) → AreSums editions.now days.now list → result ≡ prices_of_journeys editions.now list again day }
{
    pay_account::laws::week_days();
    pay_week::laws::empty_days();
    let monday = monday(day);
    let (those, week) = days.of_days(monday, DAYS_PER_WEEK);
    Priced {
        again,
        day,
        day_price: day_of(editions, days, day),
        week_price: week_of(editions, monday, those, week),
    }
}
