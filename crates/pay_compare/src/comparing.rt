//! The first day on which a fare file prices otherwise than an older one.
ghost use Rattle.std.specs.Prelude.{◌≡◌, ◌≤◌, ◌<◌, ℕ, IfSome, None};
ghost use Rattle.pay_day.specs.declared.limits.TheConstants.{FIRST_DAY, LAST_DAY};
ghost use Rattle.pay_compare.specs.Agreement.{AgreeThrough, PriceAlike, KeepsNetwork};
ghost use Rattle.pay_compare.specs.Differences.{DayDiffers, IsDifference};
ghost use Rattle.pay_tables.specs.Words.{on};

use crate::difference::Difference;
use crate::key::Key;
use crate::network::network_difference;
use crate::tables::day_difference;
use pay_day::limits::{FIRST_DAY, LAST_DAY};
use pay_tables::Editions;
use pay_tables::laws::editions_share;

/// The first day that a fare file prices otherwise than an older file did, with a key that differs, or `None` if it prices
/// each day from 4 to 50,000 as that one. Of the keys those that all editions share come first, with day 4. New zones,
/// stations, routes and their interchanges are no difference: no accepted tap was there.
pub fn first_difference(new: &Editions, old: &Editions) -> Option<Difference>
    ensures agree { (last : ℕ) → FIRST_DAY ≤ last → last ≤ LAST_DAY → IfSome result (λ d. last < d.day) → AgreeThrough new.now old.now last }
    ensures differs { IfSome result (λ d. IsDifference new.now old.now d.day d.key) }
    ensures in_range { IfSome result (λ d. (FIRST_DAY ≤ d.day) × (d.day ≤ LAST_DAY)) }
{
    match network_difference(new.own(), old.own()) {
        Some(key) => Some(Difference {
            day: FIRST_DAY,
            key,
        }),
        None => first_day_that_differs(new, old),
    }
}

/// The first day that its edition prices otherwise.
fn first_day_that_differs(new: &Editions, old: &Editions) -> Option<Difference>
    requires { KeepsNetwork new.now.own old.now.own }
    ensures agree { (last : ℕ) → FIRST_DAY ≤ last → last ≤ LAST_DAY → IfSome result (λ d. last < d.day) → AgreeThrough new.now old.now last }
    ensures differs { IfSome result (λ d. IsDifference new.now old.now d.day d.key) }
    ensures in_range { IfSome result (λ d. (FIRST_DAY ≤ d.day) × (d.day ≤ LAST_DAY)) }
{
    for day in FIRST_DAY..=LAST_DAY {
        if let Some(key) = difference_on(new, old, day) {
            return Some(Difference { day, key });
        }
    }
    None
}

/// A key by which the editions of a day price it otherwise.
fn difference_on(new: &Editions, old: &Editions, day: u32) -> Option<Key>
    requires { KeepsNetwork new.now.own old.now.own }
    ensures none { result ≡ None → PriceAlike (on new.now day) (on old.now day) day }
    ensures differs { IfSome result (DayDiffers (on new.now day) (on old.now day) day) }
{
    editions_share(new);
    editions_share(old);
    day_difference(new.on(day), old.on(day), day)
}
