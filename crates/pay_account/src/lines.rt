ghost use Rattle.std.specs.Prelude.{◌≡◌, map, filter, IfOk, OnOk};
ghost use Rattle.pay_tables.specs.Words.{on};
ghost use Rattle.pay_rules.specs.Order.{in_order_by};
ghost use Rattle.pay_rules.specs.RailJourneys.{first_tap};
ghost use Rattle.pay_rules.specs.DayPrices.{capped_price};
ghost use Rattle.pay_rules.specs.Journeys.{is_on};
ghost use Rattle.pay_rules.specs.Prices.{journeys_on};
ghost use Rattle.pay_rules.specs.Lines.{line_kind, from_of, to_of, line_band, line_of_journey, lines_on};

use crate::journeys::is_on;
use pay_rules::{Journey, Kind, Line, LineKind, Lines};
use pay_tables::{Editions, Tables};
use pay_week::{covers, fare};
use std::alloc::{AllocError, Global};

fn line_kind(journey: &Journey) -> LineKind
    ensures { result ≡ line_kind journey.now }
{
    match journey {
        Journey::Run(_) => LineKind::Rail,
        Journey::Same(_) => LineKind::Same,
        Journey::Lone(_) => LineKind::Lone,
        Journey::Bus { .. } => LineKind::Bus,
    }
}

fn from_of(journey: &Journey) -> u16
    ensures { result ≡ from_of journey.now }
{
    match journey {
        Journey::Run(run) => run.first().entry.place,
        Journey::Same(leg) => leg.entry.place,
        Journey::Lone(tap) if tap.kind == Kind::Out => 0,
        Journey::Lone(tap) => tap.place,
        Journey::Bus { tap, .. } => tap.place,
    }
}

fn to_of(journey: &Journey) -> u16
    ensures { result ≡ to_of journey.now }
{
    match journey {
        Journey::Run(run) => run.last().exit.place,
        Journey::Same(leg) => leg.exit.place,
        Journey::Lone(tap) if tap.kind == Kind::Out => tap.place,
        Journey::Lone(_) | Journey::Bus { .. } => 0,
    }
}

/// The band that gives the price of a day, where it covers a journey of that day. A band is told by its
/// place in the fare file.
fn line_band(tables: &Tables, giving: Option<u8>, journey: &Journey) -> Option<u8>
    ensures { result ≡ line_band tables.now giving journey.now }
{
    let place = giving?;
    let band = tables.bands().get(usize::from(place))?;
    if covers(tables, band, journey) {
        Some(place)
    } else {
        None
    }
}

/// A journey as a line, of a day whose price a band gives, or none.
pub fn line_of_journey(tables: &Tables, giving: Option<u8>, journey: &Journey) -> Line
    ensures { result ≡ line_of_journey tables.now giving journey.now }
{
    let stamp = journey.first_tap().stamp;
    Line {
        day: stamp.day(),
        kind: line_kind(journey),
        from: from_of(journey),
        to: to_of(journey),
        utc: stamp.utc(),
        second: stamp.second(),
        fare: fare(tables, journey),
        band: line_band(tables, giving, journey),
    }
}

/// Leaves the journeys of a service day.
fn keep_day(list: &mut Vec<Journey>, day: u32)
    ensures { list.new.items ≡ filter (is_on day) list.old.items }
{
    list.retain(|journey| is_on(journey, day));
}

/// Puts journeys in the order of their first taps.
pub fn sort_by_first_tap(list: &mut Vec<Journey>) -> Result<(), AllocError>
    ensures { OnOk result (list.new.items ≡ in_order_by first_tap list.old.items) }
{
    pay_taps::laws::sorting::<Journey>();
    list.sort_by_key(|journey| {
        let touch = journey.first_tap();
        (touch.stamp.utc(), touch.filled, touch.first, touch.second)
    })
}

/// Each journey as a line.
fn lines_of_journeys(
    alloc: Global,
    tables: &Tables,
    giving: Option<u8>,
    list: &[Journey],
) -> Result<Vec<Line>, AllocError>
    ensures { IfOk result (λ lines. lines.items ≡ map (line_of_journey tables.now giving) list.now) }
{
    list.iter()
        .map(|journey| line_of_journey(tables, giving, journey))
        .collect(alloc)
}

/// The journeys of a service day as lines, in the order of their first taps, rail and bus together.
/// `giving` is the band that gives the day's price.
pub fn lines_on(
    alloc: Global,
    editions: &Editions,
    mut list: Vec<Journey>,
    day: u32,
    giving: Option<u8>,
) -> Result<Lines, AllocError>
    requires { giving ≡ (capped_price (on editions.now day) (journeys_on list.items day)).1 }
    ensures { IfOk result (λ lines. lines ≡ lines_on editions.now list.items day) }
{
    keep_day(&mut list, day);
    sort_by_first_tap(&mut list)?;
    let lines = lines_of_journeys(alloc, editions.on(day), giving, &list)?;
    Ok(Lines::from(lines))
}
