//! Rail taps that enter or leave: where journeys start then, and which journeys it changes.
ghost use Rattle.std.specs.Prelude.{◌≡◌, ◌<◌, ◌≤◌, ◌+◌, ◌-◌, ◌*◌, ◌++◌, true, length, slice_get, Some, IfOk, OnOk};
ghost use Rattle.pay_taps.specs.Words.{place_of};
ghost use Rattle.pay_rules.specs.Legs.{legs};
ghost use Rattle.pay_links.specs.Words.{starts};
ghost use Rattle.pay_links.specs.Starts.{journeys_by_marks};
ghost use Rattle.pay_rules.specs.RailJourneys.{journeys};
ghost use Rattle.pay_book.specs.Rail.{second_before, mark_in, AreMarkedElsewhere, taps_in, at_most_one, IsDisturbedBy};
ghost use Rattle.pay_book.specs.Disturbed.{disturbed_by_rail};
ghost use Rattle.pay_book.specs.Fewer.{fewer_of, more_of};

use crate::by_marks::journeys_by_marks;
use crate::stretch::{Stretch, stretch_around, tap_at};
use pay_rules::{Journey, Touch};
use pay_tables::Editions;
use pay_taps::{Steps, Timeline};
use std::alloc::{AllocError, Global};

/// The journeys by rail that a tap disturbs, without it and with it.
#[derive(Drop)]
pub(crate) struct Disturbed {
    pub(crate) fewer: Vec<Journey>,
    pub(crate) more: Vec<Journey>,
}

/// The tap two places before one.
#[tactic(auto, using(crate::proofs::Fewer::at_most_one_read))]
fn second_before(rail: &Timeline, place: usize, steps: &mut Steps) -> Option<Touch>
    ensures value { result ≡ second_before rail.now.touches place }
    ensures rises { steps.old ≤ steps.new }
    ensures steps { steps.new ≤ steps.old + 1 }
{
    if place == 0 {
        return None;
    }
    rail.before(place - 1, steps)
}

/// Whether a journey starts at a tap, by the taps next to it.
#[tactic(auto, using(crate::proofs::Marks::mark_by_place, crate::proofs::Fewer::at_most_one_read))]
fn mark_of(editions: &Editions, rail: &Timeline, place: usize, steps: &mut Steps) -> bool
    requires { place < length rail.now.touches }
    ensures value { result ≡ mark_in (starts editions.now rail.now.touches) place }
    ensures rises { steps.old ≤ steps.new }
    ensures steps { steps.new ≤ steps.old + 4 }
{
    let Some(tap) = rail.at(place, steps) else {
        return true;
    };
    let farther = second_before(rail, place, steps);
    let nearer = rail.before(place, steps);
    let next = rail.after(place, steps);
    pay_links::starts_at(editions, &farther, &nearer, &tap, &next)
}

/// Marks the taps around a place again, once a tap was put in or taken out there.
pub(crate) fn mark_again(
    editions: &Editions,
    rail: &Timeline,
    marks: &mut [bool],
    place: usize,
    steps: &mut Steps,
)
    requires { AreMarkedElsewhere editions.now rail.now.touches place marks.old }
    ensures marks { marks.new ≡ starts editions.now rail.now.touches }
    ensures rises { steps.old ≤ steps.new }
    ensures steps { steps.new ≤ steps.old + 16 }
{
    let end = place.saturating_add(3).min(marks.len());
    for at in place.saturating_sub(1)..end {
        marks[at] = mark_of(editions, rail, at, steps);
    }
}

/// Adds a tap, where there is one. An `Err` is out of memory.
fn add_tap(taps: &mut Vec<Touch>, tap: Option<Touch>) -> Result<(), AllocError>
    ensures { OnOk result (taps.new.items ≡ taps.old.items ++ at_most_one tap) }
{
    if let Some(tap) = tap {
        taps.push(tap)?;
    }
    Ok(())
}

/// The taps of a stretch, without the one that disturbs it, with room for that. An `Err` is out of
/// memory.
fn taps_of_stretch(
    alloc: Global,
    rail: &Timeline,
    place: usize,
    is_there: bool,
    stretch: &Stretch,
    steps: &mut Steps,
) -> Result<Vec<Touch>, AllocError>
    requires { stretch.now.from ≤ stretch.now.to }
    ensures taps { IfOk result (λ taps. taps.items ≡ taps_in stretch.now.from stretch.now.to (fewer_of is_there place rail.now.touches)) }
    ensures rises { steps.old ≤ steps.new }
    ensures steps { steps.new ≤ steps.old + (stretch.now.to - stretch.now.from) }
{
    let mut taps = Vec::with_capacity(alloc, (stretch.to - stretch.from).saturating_add(1))?;
    for at in stretch.from..stretch.to {
        add_tap(&mut taps, tap_at(rail, place, is_there, at, steps))?;
    }
    Ok(taps)
}

/// The journeys by rail of taps in order. An `Err` is out of memory.
fn journeys_of(
    alloc: Global,
    editions: &Editions,
    taps: &[Touch],
) -> Result<Vec<Journey>, AllocError>
    ensures { IfOk result (λ list. list.items ≡ journeys editions.now.own (legs editions.now taps.now)) }
{
    let parts = pay_pairs::legs(alloc, editions, taps)?;
    pay_links::journeys(alloc, editions.own(), &parts)
}

/// All journeys by rail, as their marks give them back. An `Err` is out of memory.
pub(crate) fn all_journeys(
    alloc: Global,
    rail: &Timeline,
    marks: &[bool],
) -> Result<Vec<Journey>, AllocError>
    requires { length marks.now ≡ length rail.now.touches }
    ensures { IfOk result (λ list. list.items ≡ journeys_by_marks marks.now rail.now.touches) }
{
    let taps = rail.list(alloc)?;
    journeys_by_marks(alloc, marks, &taps)
}

/// The journeys that a rail tap changes as it enters, or as it leaves where it is there: what they are
/// without it and with it. All others stay as they are. An `Err` is out of memory.
pub(crate) fn disturbed_by(
    alloc: Global,
    editions: &Editions,
    rail: &Timeline,
    marks: &[bool],
    touch: &Touch,
    is_there: bool,
    steps: &mut Steps,
) -> Result<Disturbed, AllocError>
    requires there { is_there ≡ true → slice_get rail.now.touches (place_of touch.now rail.now.touches) ≡ Some touch.now }
    requires marked { marks.now ≡ starts editions.now rail.now.touches }
    ensures disturbed { IfOk result (λ d. IsDisturbedBy editions.now rail.now.touches touch.now is_there d.fewer.items d.more.items) }
    ensures few { IfOk result (λ d. (length d.fewer.items ≤ 4) × (length d.more.items ≤ 5)) }
    ensures rises { steps.old ≤ steps.new }
    ensures steps { OnOk result (steps.new ≤ steps.old + 8 + 2 * disturbed_by_rail editions.now (more_of is_there touch.now rail.now.touches) (place_of touch.now rail.now.touches)) }
{
    pay_links::laws::starts_are_local();
    pay_links::laws::each_tap();
    pay_links::laws::cut();
    pay_taps::laws::places();
    let place = rail.place(touch);
    let stretch = stretch_around(editions, rail, marks, touch, place, is_there, steps);
    let mut taps = taps_of_stretch(alloc, rail, place, is_there, &stretch, steps)?;
    let fewer = journeys_of(alloc, editions, &taps)?;
    taps.insert(place - stretch.from, *touch)?;
    let more = journeys_of(alloc, editions, &taps)?;
    Ok(Disturbed { fewer, more })
}
