//! The journeys of an account, and the sums of their fares.
ghost use Rattle.std.specs.Prelude.{◌≡◌, ◌≤◌, ◌+◌, ◌*◌, filter, length, IfOk};
ghost use Rattle.pay_money.specs.declared.limits.TheConstants.{MOST_MONEY};
ghost use Rattle.pay_tables.specs.declared.limits.TheConstants.{MOST_FARE};
ghost use Rattle.pay_tables.specs.Words.{on};
ghost use Rattle.pay_rules.specs.declared.limits.TheConstants.{MOST_TOUCHES};
ghost use Rattle.pay_rules.specs.Journeys.{is_bus, is_rail, is_on, rail_journeys};
ghost use Rattle.pay_caps.specs.Words.{cells_of, total};
ghost use Rattle.pay_why.specs.Words.{bus_journeys};
ghost use Rattle.pay_explain.specs.Cells.{with_journey, with_each, cells_on};

use pay_caps::{Cells, cell_of, fare};
use pay_day::Moment;
use pay_links::journeys;
use pay_pairs::legs;
use pay_rules::{Journey, Kind, Touch};
use pay_tables::Editions;
use pay_why::next_boarding;
use std::alloc::{AllocError, Global};

/// Whether a touch was made on a bus or a tram.
fn is_bus(touch: &Touch) -> bool
    ensures { result ≡ is_bus touch.now }
{
    touch.kind == Kind::Bus
}

/// The boardings among touches.
pub fn boardings_of(alloc: Global, touches: &[Touch]) -> Result<Vec<Touch>, AllocError>
    ensures { IfOk result (λ list. list.items ≡ filter is_bus touches.now) }
{
    touches
        .iter()
        .filter(|touch| is_bus(touch))
        .copied()
        .collect(alloc)
}

/// The touches at stations.
fn rail_touches(alloc: Global, touches: &[Touch]) -> Result<Vec<Touch>, AllocError>
    ensures { IfOk result (λ list. list.items ≡ filter is_rail touches.now) }
{
    touches
        .iter()
        .filter(|touch| !is_bus(touch))
        .copied()
        .collect(alloc)
}

/// The journeys by rail that touches in order make.
pub fn rail_journeys(
    alloc: Global,
    editions: &Editions,
    touches: &[Touch],
) -> Result<Vec<Journey>, AllocError>
    ensures value { IfOk result (λ list. list.items ≡ rail_journeys editions.now touches.now) }
    ensures no_more { IfOk result (λ list. length list.items ≤ length (filter is_rail touches.now)) }
{
    let rail = rail_touches(alloc, touches)?;
    let parts = legs(alloc, editions, &rail)?;
    journeys(alloc, editions.own(), &parts)
}

/// Whether a journey is of a service day.
fn is_on(journey: &Journey, day: u32) -> bool
    ensures { result ≡ is_on day journey.now }
{
    journey.first_tap().stamp.day() == day
}

/// Adds the fare of a journey, where it is of a service day.
fn add_fare(cells: &mut Cells, editions: &Editions, journey: &Journey, day: u32)
    requires { total cells.old + MOST_FARE ≤ MOST_MONEY }
    ensures value { cells.new ≡ with_journey editions.now day cells.old journey.now }
    ensures in_range { total cells.new ≤ total cells.old + MOST_FARE }
{
    if is_on(journey, day) {
        let tables = editions.on(day);
        cells.add(cell_of(tables, journey), fare(tables, journey));
    }
}

/// Adds the fares of the journeys by rail of a service day.
fn add_rail(cells: &mut Cells, editions: &Editions, journeys: &[Journey], day: u32)
    requires { total cells.old + length journeys.now * MOST_FARE ≤ MOST_MONEY }
    ensures value { cells.new ≡ with_each editions.now day cells.old journeys.now }
    ensures in_range { total cells.new ≤ total cells.old + length journeys.now * MOST_FARE }
{
    for journey in journeys {
        add_fare(cells, editions, journey, day);
    }
}

/// Adds the fares of the boardings of a service day, each judged by the last before it that paid.
fn add_boardings(cells: &mut Cells, editions: &Editions, boardings: &[Touch], day: u32)
    requires { total cells.old + length boardings.now * MOST_FARE ≤ MOST_MONEY }
    ensures { cells.new ≡ with_each editions.now day cells.old (bus_journeys editions.now boardings.now) }
{
    pay_hopper::laws::by_the_last();
    let mut last_paid: Option<Moment> = None;
    for place in 0..boardings.len() {
        let journey = next_boarding(editions.own(), &mut last_paid, &boardings[place]);
        add_fare(cells, editions, &journey, day);
    }
}

/// The sums of the fares of a service day, by all journeys by rail and all boardings of an account.
pub fn cells_on(editions: &Editions, journeys: &[Journey], boardings: &[Touch], day: u32) -> Cells
    requires { length journeys.now + length boardings.now ≤ MOST_TOUCHES }
    ensures { result ≡ cells_on editions.now journeys.now boardings.now day }
{
    pay_caps::laws::sums();
    let mut cells = Cells::new();
    add_rail(&mut cells, editions, journeys, day);
    add_boardings(&mut cells, editions, boardings, day);
    cells
}
