ghost use Rattle.std.specs.Prelude.{◌≡◌, ◌∷◌, ◌++◌, [], filter, map, IfOk, OnOk};
ghost use Rattle.pay_hopper.specs.Words.{pays_by_last, last_paid_after};
ghost use Rattle.pay_rules.specs.Order.{in_order_by};
ghost use Rattle.pay_rules.specs.declared.journey.Journey.TheVariants as journey;
ghost use Rattle.pay_why.specs.declared.listed.Mode.TheVariants as mode;
ghost use Rattle.pay_why.specs.declared.listed.ListedJourney.{ListedJourney};
ghost use Rattle.pay_why.specs.Listed.{bus_journeys, placed, listed, is_listed_on, listed_journeys};

use crate::listed::{ListedJourney, Mode};
use pay_day::Moment;
use pay_fares::fare_by;
use pay_hopper::pays;
use pay_rules::{Journey, Touch};
use pay_tables::{Editions, Tables};
use std::alloc::{AllocError, Global};

/// Adds a journey, where it is of a service day.
fn add_journey(
    list: &mut Vec<ListedJourney>,
    editions: &Editions,
    mode: Mode,
    place: usize,
    journey: &Journey,
    day: u32,
) -> Result<(), AllocError>
    ensures { OnOk result (list.new.items ≡ list.old.items ++ filter (is_listed_on day) (listed editions.now (mode, place, journey.now) ∷ [])) }
{
    let tap = journey.first_tap();
    if tap.stamp.day() == day {
        let fare = fare_by(editions, journey);
        list.push(ListedJourney {
            mode,
            place,
            tap,
            fare,
        })?;
    }
    Ok(())
}

/// Adds the journeys by rail of a service day.
fn add_rail(
    list: &mut Vec<ListedJourney>,
    editions: &Editions,
    journeys: &[Journey],
    day: u32,
) -> Result<(), AllocError>
    ensures { OnOk result (list.new.items ≡ list.old.items ++ filter (is_listed_on day) (map (listed editions.now) (placed mode.Rail journeys.now))) }
{
    for place in 0..journeys.len() {
        add_journey(list, editions, Mode::Rail, place, &journeys[place], day)?;
    }
    Ok(())
}

/// A boarding as a journey, with whether it pays. `last_paid` is the moment of the last boarding before it
/// that paid, and becomes its own where it pays.
pub fn next_boarding(tables: &Tables, last_paid: &mut Option<Moment>, tap: &Touch) -> Journey
    ensures value { result ≡ journey.Bus tap.now (pays_by_last tables.now.rules.hopper last_paid.old tap.now.stamp.utc) }
    ensures after { last_paid.new ≡ last_paid_after tables.now.rules.hopper last_paid.old tap.now.stamp }
{
    let pays = pays(tables, last_paid, tap);
    if pays {
        *last_paid = Some(tap.stamp);
    }
    Journey::Bus { tap: *tap, pays }
}

/// Adds the boardings of a service day.
fn add_boardings(
    list: &mut Vec<ListedJourney>,
    editions: &Editions,
    boardings: &[Touch],
    day: u32,
) -> Result<(), AllocError>
    ensures { OnOk result (list.new.items ≡ list.old.items ++ filter (is_listed_on day) (map (listed editions.now) (placed mode.Bus (bus_journeys editions.now boardings.now)))) }
{
    pay_hopper::laws::by_the_last();
    let mut last_paid: Option<Moment> = None;
    for place in 0..boardings.len() {
        let journey = next_boarding(editions.own(), &mut last_paid, &boardings[place]);
        add_journey(list, editions, Mode::Bus, place, &journey, day)?;
    }
    Ok(())
}

/// Puts journeys in the order of their first taps.
fn sort_by_first_tap(list: &mut Vec<ListedJourney>) -> Result<(), AllocError>
    ensures { OnOk result (list.new.items ≡ in_order_by (λ (one : ListedJourney). one.tap) list.old.items) }
{
    pay_taps::laws::sorting::<ListedJourney>();
    list.sort_by_key(|one| {
        let touch = one.tap;
        (touch.stamp.utc(), touch.filled, touch.first, touch.second)
    })
}

/// The journeys of a service day, by rail and by bus together, in the order of their first taps, as `SHOW`
/// lists them. An `Err` is out of memory.
///
/// `journeys` are all journeys by rail of an account, and `boardings` all its boardings, each in their
/// order. The place of each journey is that among these, so its reason can be asked for.
pub fn listed_journeys(
    alloc: Global,
    editions: &Editions,
    journeys: &[Journey],
    boardings: &[Touch],
    day: u32,
) -> Result<Vec<ListedJourney>, AllocError>
    ensures { IfOk result (λ list. list.items ≡ listed_journeys editions.now journeys.now boardings.now day) }
{
    let mut list = Vec::new(alloc);
    add_rail(&mut list, editions, journeys, day)?;
    add_boardings(&mut list, editions, boardings, day)?;
    sort_by_first_tap(&mut list)?;
    Ok(list)
}
