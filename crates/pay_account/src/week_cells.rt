ghost use Rattle.std.specs.Prelude.{◌≡◌, ◌≤◌, ◌+◌, ◌*◌, ◌++◌, if◌then◌else◌, length, sum_by};
ghost use Rattle.pay_day.specs.Words.{IsDay};
ghost use Rattle.pay_hopper.specs.Words.{last_paid_after};
ghost use Rattle.pay_tables.specs.Words.{on};
ghost use Rattle.pay_tables.specs.declared.limits.TheConstants.{MOST_FARE};
ghost use Rattle.pay_rules.specs.declared.limits.TheConstants.{MOST_TOUCHES};
ghost use Rattle.pay_money.specs.declared.limits.TheConstants.{MOST_MONEY};
ghost use Rattle.pay_week.specs.Words.{cells_of, total};
ghost use Rattle.pay_rules.specs.Journeys.{boardings, is_bus};
ghost use Rattle.pay_account.specs.NextBoardings.{next_boarding};
ghost use Rattle.pay_rules.specs.Prices.{journeys_on};
ghost use Rattle.pay_account.specs.WeekCells.{sums_of_week, week_with_journey, week_with_journeys, with_journey};

use crate::journeys::{day_of, is_on, next_boarding};
use pay_day::limits::DAYS_PER_WEEK;
use pay_day::{Moment, monday};
use pay_rules::{Journey, Touch};
use pay_tables::Editions;
use pay_week::{Cells, cell_of, fare};

/// The sums of the fares of each day of a week, from Monday through Sunday.
pub type Week = [Cells; DAYS_PER_WEEK as usize];

/// Adds the fare of a journey to the sums of its day, where that is of the week.
fn add_journey(week: &mut Week, editions: &Editions, journey: &Journey, monday: u32)
    requires { sum_by total week.old + MOST_FARE ≤ MOST_MONEY }
    ensures value { week.new ≡ week_with_journey editions.now monday week.old journey.now }
    ensures in_range { sum_by total week.new ≤ sum_by total week.old + MOST_FARE }
{
    let day = day_of(journey);
    if monday <= day && day - monday < DAYS_PER_WEEK {
        let place = (day - monday) as usize;
        let tables = editions.on(day);
        week[place].add(cell_of(tables, journey), fare(tables, journey));
    }
}

/// Adds the fares of journeys.
fn add_journeys(week: &mut Week, editions: &Editions, journeys: &[Journey], monday: u32)
    requires { sum_by total week.old + length journeys.now * MOST_FARE ≤ MOST_MONEY }
    ensures value { week.new ≡ week_with_journeys editions.now monday week.old journeys.now }
    ensures in_range { sum_by total week.new ≤ sum_by total week.old + length journeys.now * MOST_FARE }
{
    for journey in journeys {
        add_journey(week, editions, journey, monday);
    }
}

/// Adds the fare of a touch on a bus or a tram; `last_paid` is as for `next_boarding`. A touch at a
/// station adds nothing.
fn add_boarding(
    week: &mut Week,
    editions: &Editions,
    last_paid: &mut Option<Moment>,
    touch: &Touch,
    monday: u32,
)
    requires { sum_by total week.old + MOST_FARE ≤ MOST_MONEY }
    ensures last_paid { last_paid.new ≡ (if is_bus touch.now then last_paid_after editions.now.own.rules.hopper last_paid.old touch.now.stamp else last_paid.old) }
    ensures value { week.new ≡ (if is_bus touch.now then week_with_journey editions.now monday week.old (next_boarding editions.now.own.rules.hopper last_paid.old touch.now) else week.old) }
    ensures in_range { sum_by total week.new ≤ sum_by total week.old + MOST_FARE }
{
    if let Some(journey) = next_boarding(editions.own(), last_paid, touch) {
        add_journey(week, editions, &journey, monday);
    }
}

/// Adds the fares of the boardings among touches in order.
fn add_boardings(week: &mut Week, editions: &Editions, touches: &[Touch], monday: u32)
    requires { sum_by total week.old + length touches.now * MOST_FARE ≤ MOST_MONEY }
    ensures { week.new ≡ week_with_journeys editions.now monday week.old (boardings editions.now touches.now) }
{
    pay_hopper::laws::by_the_last();
    let mut last_paid = None;
    for touch in touches {
        add_boarding(week, editions, &mut last_paid, touch, monday);
    }
}

/// The sums of the fares of each day of a day's week, from Monday through Sunday, of journeys by rail and of
/// the boardings among touches in order.
pub fn cells_of_week(editions: &Editions, rail: &[Journey], touches: &[Touch], day: u32) -> Week
    requires few_rail { length rail.now ≤ MOST_TOUCHES }
    requires few { length touches.now ≤ MOST_TOUCHES }
    requires is_day { IsDay day }
    ensures { result ≡ sums_of_week editions.now (rail.now ++ boardings editions.now touches.now) day }
{
    pay_week::day_laws::sums();
    let monday = monday(day);
    let mut week = [Cells::new(); DAYS_PER_WEEK as usize];
    add_journeys(&mut week, editions, rail, monday);
    add_boardings(&mut week, editions, touches, monday);
    week
}

/// The sums of the fares of each day of a day's week, from Monday through Sunday, of all journeys.
pub fn cells_of_days(editions: &Editions, journeys: &[Journey], day: u32) -> Week
    requires few { length journeys.now ≤ MOST_TOUCHES }
    requires is_day { IsDay day }
    ensures { result ≡ sums_of_week editions.now journeys.now day }
{
    pay_week::day_laws::sums();
    let mut week = [Cells::new(); DAYS_PER_WEEK as usize];
    add_journeys(&mut week, editions, journeys, monday(day));
    week
}

/// Adds the fare of a journey, where it is of a service day.
fn add_on(cells: &mut Cells, editions: &Editions, journey: &Journey, day: u32)
    requires { total cells.old + MOST_FARE ≤ MOST_MONEY }
    ensures value { cells.new ≡ with_journey editions.now day cells.old journey.now }
    ensures in_range { total cells.new ≤ total cells.old + MOST_FARE }
{
    if is_on(journey, day) {
        let tables = editions.on(day);
        cells.add(cell_of(tables, journey), fare(tables, journey));
    }
}

/// The sums of the fares of the journeys of a service day.
pub fn cells_on(editions: &Editions, journeys: &[Journey], day: u32) -> Cells
    requires { length journeys.now ≤ MOST_TOUCHES }
    ensures { result ≡ cells_of (on editions.now day) (journeys_on journeys.now day) }
{
    pay_week::day_laws::sums();
    let mut cells = Cells::new();
    for journey in journeys {
        add_on(&mut cells, editions, journey, day);
    }
    cells
}
