ghost use Rattle.std.specs.Prelude.{◌≡◌, ◌≤◌, ◌++◌, filter, length, if◌then◌else◌, Some, None, IfOk, OnOk};
ghost use Rattle.pay_hopper.specs.Words.{last_paid_after};
ghost use Rattle.pay_rules.specs.RailJourneys.{first_tap};
ghost use Rattle.pay_rules.specs.Journeys.{boardings, is_bus, is_rail, rail_journeys, journeys_of, is_on};
ghost use Rattle.pay_account.specs.NextBoardings.{next_boarding};

use pay_day::Moment;
use pay_hopper::pays;
use pay_links::{journeys, legs};
use pay_rules::{Journey, Kind, Touch};
use pay_tables::{Editions, Tables};
use std::alloc::{AllocError, Global};

/// Whether a touch was made on a bus or a tram.
fn is_bus(touch: &Touch) -> bool
    ensures { result ≡ is_bus touch.now }
{
    touch.kind == Kind::Bus
}

/// The touches at stations.
fn rail_touches(alloc: Global, touches: &[Touch]) -> Result<Vec<Touch>, AllocError>
    ensures { IfOk result (λ list. list.items ≡ filter is_rail touches.now) }
{
    touches
        .iter()
        .filter(|touch| !is_bus(touch))
        .copied()
        .collect(alloc)
}

/// The journeys by rail that touches in order make.
pub fn rail_journeys(
    alloc: Global,
    editions: &Editions,
    touches: &[Touch],
) -> Result<Vec<Journey>, AllocError>
    ensures value { IfOk result (λ list. list.items ≡ rail_journeys editions.now touches.now) }
    ensures no_more { IfOk result (λ list. length list.items ≤ length (filter is_rail touches.now)) }
{
    let rail = rail_touches(alloc, touches)?;
    let parts = legs(alloc, editions, &rail)?;
    journeys(alloc, editions.own(), &parts)
}

/// A touch on a bus or a tram as a boarding, with whether it pays, and `None` for one at a station.
/// `last_paid` is the moment of the last boarding before it that paid, and becomes its own where it
/// pays.
pub fn next_boarding(
    tables: &Tables,
    last_paid: &mut Option<Moment>,
    touch: &Touch,
) -> Option<Journey>
    ensures value { result ≡ (if is_bus touch.now then Some (next_boarding tables.now.rules.hopper last_paid.old touch.now) else None) }
    ensures after { last_paid.new ≡ (if is_bus touch.now then last_paid_after tables.now.rules.hopper last_paid.old touch.now.stamp else last_paid.old) }
{
    if !is_bus(touch) {
        return None;
    }
    let pays = pays(tables, last_paid, touch);
    if pays {
        *last_paid = Some(touch.stamp);
    }
    Some(Journey::Bus { tap: *touch, pays })
}

/// Adds each touch on a bus or a tram as a boarding, with whether it pays.
fn add_boardings(
    list: &mut Vec<Journey>,
    editions: &Editions,
    touches: &[Touch],
) -> Result<(), AllocError>
    ensures { OnOk result (list.new.items ≡ list.old.items ++ boardings editions.now touches.now) }
{
    pay_hopper::laws::by_the_last();
    list.reserve(touches.len())?;
    let mut last_paid = None;
    for touch in touches {
        if let Some(journey) = next_boarding(editions.own(), &mut last_paid, touch) {
            list.push(journey)?;
        }
    }
    Ok(())
}

/// All journeys that touches in order make: those by rail, and then the boardings, each with whether it
/// pays.
#[tactic(auto, using(crate::proofs::Counts::few_in_all))]
pub fn journeys_of(
    alloc: Global,
    editions: &Editions,
    touches: &[Touch],
) -> Result<Vec<Journey>, AllocError>
    ensures value { IfOk result (λ list. list.items ≡ journeys_of editions.now touches.now) }
    ensures no_more { IfOk result (λ list. length list.items ≤ length touches.now) }
{
    let mut list = rail_journeys(alloc, editions, touches)?;
    add_boardings(&mut list, editions, touches)?;
    Ok(list)
}

/// The service day that a journey belongs to: that of its first tap.
pub fn day_of(journey: &Journey) -> u32
    ensures { result ≡ (first_tap journey.now).stamp.day }
{
    journey.first_tap().stamp.day()
}

/// Whether a journey belongs to a service day.
pub fn is_on(journey: &Journey, day: u32) -> bool
    ensures { result ≡ is_on day journey.now }
{
    day_of(journey) == day
}
