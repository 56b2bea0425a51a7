//! Effective taps that a comparison of fare files says nothing of.
ghost use Rattle.std.specs.Prelude.{◌≡◌, ◌<◌, ◌↔◌, length, slice_get, IsTrue, Some, IfSome, IfNone};
ghost use Rattle.std.specs.List.{AllByRecursion};
ghost use Rattle.pay_rules.specs.InTurn.{IsIn};
ghost use Rattle.pay_compare.specs.Laws.{IsTouchWithin};

use pay_day::limits::FIRST_DAY;
use pay_rules::Touch;
use pay_tables::Editions;
use pay_taps::{Steps, Timeline};

/// Whether an effective tap is of a day up to one, at a place that an old fare file has.
fn is_within(old: &Editions, last: u32, touch: &Touch) -> bool
    ensures { IsTrue result ↔ IsTouchWithin old.now last touch.now }
{
    let day = touch.stamp.day();
    FIRST_DAY <= day && day <= last && old.own().place(touch.place).is_some()
}

/// The effective tap at a place.
fn touch_at(taps: &Timeline, place: usize) -> Touch
    requires { place < length taps.now.touches }
    ensures { slice_get taps.now.touches place ≡ Some result }
{
    match taps.at(place, &mut Steps::new()) {
        Some(touch) => touch,
        None => unreachable!(),
    }
}

/// The first of these effective taps that is not.
pub(crate) fn first_outside(old: &Editions, last: u32, taps: &Timeline) -> Option<Touch>
    ensures none { IfNone result (AllByRecursion (IsTouchWithin old.now last) taps.now.touches) }
    ensures some { IfSome result (λ touch. IsIn taps.now.touches touch × ¬ IsTouchWithin old.now last touch) }
{
    for place in 0..taps.len() {
        let touch = touch_at(taps, place);
        if !is_within(old, last, &touch) {
            return Some(touch);
        }
    }
    None
}
