//! From where to where a rail tap that enters or leaves disturbs the journeys.
ghost use Rattle.std.specs.Prelude.{◌≡◌, ◌≤◌, ◌<◌, ◌+◌, ◌-◌, ℕ, true, false, Bool, List, IsTrue, length, slice_get};
ghost use Rattle.pay_taps.specs.Words.{touch_before};
ghost use Rattle.pay_rules.specs.declared.tap.Touch.{Touch};
ghost use Rattle.pay_links.specs.Words.{starts};
ghost use Rattle.pay_book.specs.Rail.{second_before, third_before, mark_in, starts_if_there};
ghost use Rattle.pay_book.specs.Fewer.{fewer_of};
ghost use Rattle.pay_book.specs.Rail.{IsAround, starts_at_it, starts_before_it, starts_after_it, starts_further};
ghost use Rattle.pay_book.specs.Rail.{IsPlaced, IsFirstPlace, IsLastPlace, IsStretch, StandsThere};

use pay_rules::Touch;
use pay_tables::Editions;
use pay_taps::{Steps, Timeline};

/// The taps next to a place: three before it, and from it on three.
#[derive(Drop)]
struct Around {
    third: Option<Touch>,
    second: Option<Touch>,
    first: Option<Touch>,
    here: Option<Touch>,
    next: Option<Touch>,
    later: Option<Touch>,
}

/// From which place up to before which other one of the taps without it a tap that enters or leaves
/// disturbs the journeys.
#[derive(Clone, Copy)]
pub(crate) struct Stretch {
    pub(crate) from: usize,
    pub(crate) to: usize,
}

/// The tap at a place of the taps without one that may be there.
#[tactic(auto, using(crate::proofs::Fewer::get_fewer_before, crate::proofs::Fewer::get_fewer_after, crate::proofs::Fewer::at_most_one_read))]
pub(crate) fn tap_at(
    rail: &Timeline,
    place: usize,
    is_there: bool,
    at: usize,
    steps: &mut Steps,
) -> Option<Touch>
    ensures value { result ≡ slice_get (fewer_of is_there place rail.now.touches) at }
    ensures rises { steps.old ≤ steps.new }
    ensures steps { steps.new ≤ steps.old + 1 }
{
    if is_there && place <= at {
        rail.after(at, steps)
    } else {
        rail.at(at, steps)
    }
}

/// The tap right before a place of these.
fn first_before(
    rail: &Timeline,
    place: usize,
    is_there: bool,
    at: usize,
    steps: &mut Steps,
) -> Option<Touch>
    ensures value { result ≡ touch_before (fewer_of is_there place rail.now.touches) at }
    ensures rises { steps.old ≤ steps.new }
    ensures steps { steps.new ≤ steps.old + 1 }
{
    if at == 0 {
        return None;
    }
    tap_at(rail, place, is_there, at - 1, steps)
}

/// The tap two places before one of these.
fn second_before(
    rail: &Timeline,
    place: usize,
    is_there: bool,
    at: usize,
    steps: &mut Steps,
) -> Option<Touch>
    ensures value { result ≡ second_before (fewer_of is_there place rail.now.touches) at }
    ensures rises { steps.old ≤ steps.new }
    ensures steps { steps.new ≤ steps.old + 1 }
{
    if at == 0 {
        return None;
    }
    first_before(rail, place, is_there, at - 1, steps)
}

/// The tap three places before one of these.
fn third_before(
    rail: &Timeline,
    place: usize,
    is_there: bool,
    at: usize,
    steps: &mut Steps,
) -> Option<Touch>
    ensures value { result ≡ third_before (fewer_of is_there place rail.now.touches) at }
    ensures rises { steps.old ≤ steps.new }
    ensures steps { steps.new ≤ steps.old + 1 }
{
    if at == 0 {
        return None;
    }
    second_before(rail, place, is_there, at - 1, steps)
}

/// The tap so many places after one of these.
#[tactic(auto, using(crate::proofs::Fewer::none_so_far_on))]
fn tap_after(
    rail: &Timeline,
    place: usize,
    is_there: bool,
    by: usize,
    steps: &mut Steps,
) -> Option<Touch>
    ensures value { result ≡ slice_get (fewer_of is_there place rail.now.touches) (place + by) }
    ensures rises { steps.old ≤ steps.new }
    ensures steps { steps.new ≤ steps.old + 1 }
{
    let at = place.saturating_add(by);
    if at >= rail.len() {
        return None;
    }
    tap_at(rail, place, is_there, at, steps)
}

/// The taps next to the place of a tap, without it.
fn taps_around(rail: &Timeline, place: usize, is_there: bool, steps: &mut Steps) -> Around
    ensures taps { IsAround (fewer_of is_there place rail.now.touches) place result }
    ensures rises { steps.old ≤ steps.new }
    ensures steps { steps.new ≤ steps.old + 6 }
{
    Around {
        third: third_before(rail, place, is_there, place, steps),
        second: second_before(rail, place, is_there, place, steps),
        first: first_before(rail, place, is_there, place, steps),
        here: tap_at(rail, place, is_there, place, steps),
        next: tap_after(rail, place, is_there, 1, steps),
        later: tap_after(rail, place, is_there, 2, steps),
    }
}

/// Whether a journey starts at a tap, by the taps next to it, or there is no such tap.
fn starts_if_there(
    editions: &Editions,
    farther: &Option<Touch>,
    nearer: &Option<Touch>,
    tap: &Option<Touch>,
    next: &Option<Touch>,
) -> bool
    ensures { result ≡ starts_if_there editions.now farther.now nearer.now tap.now next.now }
{
    match tap {
        Some(tap) => pay_links::starts_at(editions, farther, nearer, tap, next),
        None => true,
    }
}

/// Whether a journey starts at the place of a tap both with it and without it.
fn starts_at_it(editions: &Editions, near: &Around, touch: &Touch) -> bool
    ensures { result ≡ starts_at_it editions.now near.now touch.now }
{
    let tap = Some(*touch);
    starts_if_there(editions, &near.second, &near.first, &tap, &near.here)
        && starts_if_there(editions, &near.second, &near.first, &near.here, &near.next)
}

/// Whether one does at the tap before it.
fn starts_before_it(editions: &Editions, near: &Around, touch: &Touch) -> bool
    ensures { result ≡ starts_before_it editions.now near.now touch.now }
{
    let tap = Some(*touch);
    starts_if_there(editions, &near.third, &near.second, &near.first, &tap)
        && starts_if_there(editions, &near.third, &near.second, &near.first, &near.here)
}

/// Whether one does at the tap after it.
fn starts_after_it(editions: &Editions, near: &Around, touch: &Touch) -> bool
    ensures { result ≡ starts_after_it editions.now near.now touch.now }
{
    let tap = Some(*touch);
    starts_if_there(editions, &near.first, &tap, &near.here, &near.next)
        && starts_if_there(editions, &near.second, &near.first, &near.here, &near.next)
}

/// Whether one does at the second tap after it.
fn starts_further(editions: &Editions, near: &Around, touch: &Touch) -> bool
    ensures { result ≡ starts_further editions.now near.now touch.now }
{
    let tap = Some(*touch);
    starts_if_there(editions, &tap, &near.here, &near.next, &near.later)
        && starts_if_there(editions, &near.first, &near.here, &near.next, &near.later)
}

/// The last place before another at which a journey starts, by the marks, or the first of all.
fn last_start(marks: &[bool], end: usize) -> usize
    requires { end ≤ length marks.now }
    ensures within { result ≤ end - 1 }
    ensures marked { mark_in marks.now 0 ≡ true → mark_in marks.now result ≡ true }
    ensures none { (other : ℕ) → result < other → other < end → mark_in marks.now other ≡ false }
{
    let mut at = end;
    while at > 0 {
        at -= 1;
        if marks[at] {
            return at;
        }
    }
    0
}

/// How many places on from one the next journey starts, by the marks, or the end is.
fn places_to_start(marks: &[bool], first: usize) -> usize
    ensures marked { mark_in marks.now (first + result) ≡ true }
    ensures within { result ≤ length marks.now - first }
    ensures none { (other : ℕ) → first ≤ other → other < first + result → mark_in marks.now other ≡ false }
{
    for at in first..marks.len() {
        if marks[at] {
            return at - first;
        }
    }
    marks.len().saturating_sub(first)
}

/// A place up to that of a tap, as near as can be, at which journeys start with it and without it.
fn first_place(
    editions: &Editions,
    marks: &[bool],
    near: &Around,
    touch: &Touch,
    place: usize,
) -> usize
    requires { place ≤ length marks.now }
    ensures { (fewer : List Touch) (is_there : Bool) → IsAround fewer place near.now →
        IsPlaced editions.now fewer touch.now is_there place marks.now → IsFirstPlace editions.now fewer touch.now place result }
{
    if place == 0 || starts_at_it(editions, near, touch) {
        return place;
    }
    if starts_before_it(editions, near, touch) {
        return place - 1;
    }
    last_start(marks, place - 1)
}

/// A place from that of a tap on, among the taps without it, as near as can be, at which journeys start
/// with it and without it.
fn last_place(
    editions: &Editions,
    marks: &[bool],
    near: &Around,
    touch: &Touch,
    place: usize,
    is_there: bool,
) -> usize
    requires { place ≤ length marks.now }
    ensures { (fewer : List Touch) → IsAround fewer place near.now →
        IsPlaced editions.now fewer touch.now is_there place marks.now → IsLastPlace editions.now fewer touch.now place result }
{
    if starts_after_it(editions, near, touch) {
        return place;
    }
    if starts_further(editions, near, touch) {
        return place + 1;
    }
    let first = if is_there { place + 3 } else { place + 2 };
    place + 2 + places_to_start(marks, first)
}

/// What a tap disturbs that is there at a place, or is not and enters there.
pub(crate) fn stretch_around(
    editions: &Editions,
    rail: &Timeline,
    marks: &[bool],
    touch: &Touch,
    place: usize,
    is_there: bool,
    steps: &mut Steps,
) -> Stretch
    requires there { StandsThere is_there place touch.now rail.now.touches }
    requires marked { marks.now ≡ starts editions.now rail.now.touches }
    ensures stretch { IsStretch editions.now (fewer_of is_there place rail.now.touches) touch.now place result.from result.to }
    ensures rises { steps.old ≤ steps.new }
    ensures steps { steps.new ≤ steps.old + 6 }
{
    let near = taps_around(rail, place, is_there, steps);
    Stretch {
        from: first_place(editions, marks, &near, touch, place),
        to: last_place(editions, marks, &near, touch, place, is_there),
    }
}
