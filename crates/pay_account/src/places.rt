ghost use Rattle.std.specs.Prelude.{◌≡◌};
ghost use Rattle.pay_rules.specs.TapPlaces.{is_known, is_known_fix};

use pay_rules::{Kind, What};
use pay_tables::{Editions, Place};

/// Whether the fare file has a place of the sort that a tap of this kind needs: a station for a tap on the
/// way in or out, a route for one on a bus or a tram.
pub fn is_known(editions: &Editions, place: u16, kind: Kind) -> bool
    ensures { result ≡ is_known editions.now place kind }
{
    match (kind, editions.own().place(place)) {
        (Kind::In | Kind::Out, Some(Place::Station { .. })) => true,
        (Kind::Bus, Some(Place::Route { .. })) => true,
        _ => false,
    }
}

/// Whether a correction is made where it may be: a Fill as the tap that it adds, any other everywhere.
pub fn is_known_fix(editions: &Editions, what: &What) -> bool
    ensures { result ≡ is_known_fix editions.now what.now }
{
    match what {
        What::Fill(_, place, kind) => is_known(editions, *place, *kind),
        _ => true,
    }
}
