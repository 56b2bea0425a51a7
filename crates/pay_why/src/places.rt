ghost use Rattle.std.specs.Prelude.{◌≡◌, ◌<◌, length};
ghost use Rattle.pay_why.specs.Places.{last_tap, tap_before, tap_after, rail_reason_at};

use crate::rail::RailReason;
use crate::rail_journeys::rail_reason;
use pay_rules::{Journey, Touch};
use pay_tables::Editions;

/// The last tap of a journey.
fn last_tap(journey: &Journey) -> Touch
    ensures { result ≡ last_tap journey.now }
{
    match journey {
        Journey::Run(run) => run.last().exit,
        Journey::Same(leg) => leg.exit,
        Journey::Lone(tap) => *tap,
        Journey::Bus { tap, .. } => *tap,
    }
}

/// The last tap of the journey before a place.
fn tap_before(journeys: &[Journey], place: usize) -> Option<Touch>
    requires { place < length journeys.now }
    ensures { result ≡ tap_before journeys.now place }
{
    if place == 0 {
        return None;
    }
    Some(last_tap(&journeys[place - 1]))
}

/// The first tap of the journey after a place.
fn tap_after(journeys: &[Journey], place: usize) -> Option<Touch>
    requires { place < length journeys.now }
    ensures { result ≡ tap_after journeys.now place }
{
    match journeys.get(place + 1) {
        Some(journey) => Some(journey.first_tap()),
        None => None,
    }
}

/// Why the journey at a place, from 0, costs what it costs by itself, or none if there is no such place.
/// `journeys` are all journeys by rail of an account, in their order.
///
/// Only a tap that stands alone goes by its neighbours: the last tap of the journey before it and the first
/// one of the journey after it are the rail taps right next to it.
pub fn rail_reason_at(editions: &Editions, journeys: &[Journey], place: usize) -> Option<RailReason>
    ensures { result ≡ rail_reason_at editions.now journeys.now place }
{
    let journey = journeys.get(place)?;
    let before = tap_before(journeys, place);
    let after = tap_after(journeys, place);
    rail_reason(editions, &before, journey, &after)
}
