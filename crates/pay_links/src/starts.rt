ghost use Rattle.std.specs.Prelude.{◌≡◌, Some, is_some};
ghost use Rattle.pay_links.specs.Starts.{leg_between, are_linked, starts_at};

use crate::links::is_linked;
use pay_pairs::is_leg;
use pay_rules::{Leg, Touch};
use pay_tables::Editions;

/// Whether a tap and the one before it are a leg, where there is one.
fn ends_leg(editions: &Editions, nearer: &Option<Touch>, tap: &Touch) -> bool
    ensures { result ≡ is_some (leg_between editions.now nearer.now (Some tap.now)) }
{
    match nearer {
        Some(entry) => is_leg(editions, entry, tap),
        None => false,
    }
}

/// Whether a tap and the next one are a leg with which the leg of the two taps before it is linked.
fn goes_on(
    editions: &Editions,
    farther: &Option<Touch>,
    nearer: &Option<Touch>,
    tap: &Touch,
    next: &Option<Touch>,
) -> bool
    ensures { result ≡ are_linked editions.now.own (leg_between editions.now farther.now nearer.now) (leg_between editions.now (Some tap.now) next.now) }
{
    let (Some(farther), Some(nearer), Some(next)) = (farther, nearer, next) else {
        return false;
    };
    if !is_leg(editions, tap, next) || !is_leg(editions, farther, nearer) {
        return false;
    }
    let before = Leg {
        entry: *farther,
        exit: *nearer,
    };
    let after = Leg {
        entry: *tap,
        exit: *next,
    };
    is_linked(editions.own(), &before, &after)
}

/// Whether a journey starts at a rail tap, by the two taps before it, the farther first, and the one
/// after it.
///
/// None does where the tap before it and it are a leg, nor where it and the one after it are a leg with
/// which the leg of the two taps before it is linked. One does at every other tap.
pub fn starts_at(
    editions: &Editions,
    farther: &Option<Touch>,
    nearer: &Option<Touch>,
    tap: &Touch,
    next: &Option<Touch>,
) -> bool
    ensures { result ≡ starts_at editions.now farther.now nearer.now tap.now next.now }
{
    !ends_leg(editions, nearer, tap) && !goes_on(editions, farther, nearer, tap, next)
}
