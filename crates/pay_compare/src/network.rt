//! What all editions of a file share: whether it is as an older file has it.
ghost use Rattle.std.specs.Prelude.{◌≡◌, ◌≢◌, ◌↔◌, ℕ, IfSome, IsTrue, None, All, false};
ghost use Rattle.std.specs.FinMap.{get};
ghost use Rattle.pay_tables.specs.Words.{interchange};
ghost use Rattle.pay_compare.specs.Agreement.{KeepsInterchange, IsKnownPlace, KeepsNetwork};
ghost use Rattle.pay_compare.specs.Differences.{InterchangesDiffer, NetworkDiffers, PlacesDiffer};

use crate::key::Key;
use pay_tables::{Interchange, Tables};

/// A key that all editions share and that differs for what the old tables know.
pub fn network_difference(new: &Tables, old: &Tables) -> Option<Key>
    ensures none { result ≡ None → KeepsNetwork new.now old.now }
    ensures differs { IfSome result (NetworkDiffers new.now old.now) }
{
    if new.zones() < old.zones() {
        return Some(Key::Zones);
    }
    if new.rules().hopper != old.rules().hopper {
        return Some(Key::Hopper);
    }
    match place_difference(new, old) {
        Some(number) => Some(Key::Place(number)),
        None => interchange_difference(new, old),
    }
}

/// The first number of a place that the old tables know, and that is another place by the new ones, or none.
fn place_difference(new: &Tables, old: &Tables) -> Option<u16>
    ensures none { result ≡ None → (number : ℕ) → IsKnownPlace old.now number → get new.now.places number ≡ get old.now.places number }
    ensures differs { IfSome result (PlacesDiffer new.now old.now) }
{
    for number in 0..=u16::MAX {
        if place_differs(new, old, number) {
            return Some(number);
        }
    }
    None
}

fn place_differs(new: &Tables, old: &Tables, number: u16) -> bool
    ensures { IsTrue result ↔ PlacesDiffer new.now old.now number }
{
    let place = old.place(number);
    place.is_some() && new.place(number) != place
}

/// An interchange between old places that differs.
fn interchange_difference(new: &Tables, old: &Tables) -> Option<Key>
    ensures none { result ≡ None → (a b : ℕ) → IsKnownPlace old.now a → IsKnownPlace old.now b → interchange new.now a b ≡ interchange old.now a b }
    ensures differs { IfSome result (NetworkDiffers new.now old.now) }
{
    let pair = match difference_among(new, old, new.interchanges()) {
        Some(pair) => pair,
        None => difference_among(new, old, old.interchanges())?,
    };
    Some(Key::Interchange(pair.a, pair.b))
}

/// The first of these pairs of stations whose interchange differs.
fn difference_among<'a>(
    new: &Tables,
    old: &Tables,
    pairs: &'a [Interchange],
) -> Option<&'a Interchange>
    ensures none { result ≡ None → All (λ pair. KeepsInterchange new.now old.now pair.a pair.b) pairs.now }
    ensures differs { IfSome result (λ pair. InterchangesDiffer new.now old.now pair.now.a pair.now.b) }
{
    pairs
        .iter()
        .find(|pair| interchange_differs(new, old, pair.a, pair.b))
}

fn interchange_differs(new: &Tables, old: &Tables, a: u16, b: u16) -> bool
    ensures alike { result ≡ false → KeepsInterchange new.now old.now a b }
    ensures differs { IsTrue result → InterchangesDiffer new.now old.now a b }
{
    let are_old = old.place(a).is_some() && old.place(b).is_some();
    are_old && new.interchange(a, b) != old.interchange(a, b)
}
