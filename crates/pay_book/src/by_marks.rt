//! The journeys by rail that taps and their marks give back, without a fare file.
ghost use Rattle.std.specs.Prelude.{◌≡◌, ◌≤◌, ◌++◌, length, drop, slice_get, IfOk, OnOk};
ghost use Rattle.pay_links.specs.Starts.{legs_by_pairs, journey_of_legs, journey_of_taps, until_start, journeys_by_marks};

use pay_rules::{Journey, Leg, Run, Touch};
use std::alloc::{AllocError, Global};

/// The item at a place.
pub(crate) fn item_at<T: Copy>(items: &[T], place: usize) -> Option<T>
    ensures { result ≡ slice_get items.now place }
{
    items.get(place).copied()
}

/// The items from a place on.
fn rest_from<T>(items: &[T], place: usize) -> &[T]
    requires { place ≤ length items.now }
    ensures { result.now ≡ drop place items.now }
{
    &items[place..]
}

/// Of taps those before the next start.
fn until_start<'a>(marks: &[bool], taps: &'a [Touch]) -> &'a [Touch]
    requires { length marks.now ≡ length taps.now }
    ensures { result.now ≡ until_start marks.now taps.now }
{
    for (place, is_start) in marks.iter().enumerate() {
        if *is_start {
            return &taps[..place];
        }
    }
    taps
}

/// Adds the legs that taps are by pairs. An `Err` is out of memory.
fn add_legs(run: &mut Run, taps: &[Touch]) -> Result<(), AllocError>
    ensures { OnOk result (run.new ≡ record { first = run.old.first; others = run.old.others ++ legs_by_pairs taps.now }) }
{
    let mut rest = taps;
    while let [entry, exit, later @ ..] = rest {
        run.push(Leg {
            entry: *entry,
            exit: *exit,
        })?;
        rest = later;
    }
    Ok(())
}

/// The journey of a leg, and of the taps that go on from it. An `Err` is out of memory.
fn journey_of_leg(alloc: Global, leg: Leg, later: &[Touch]) -> Result<Journey, AllocError>
    ensures { IfOk result (λ one. one ≡ journey_of_legs leg (legs_by_pairs later.now)) }
{
    if later.len() < 2 && leg.entry.place == leg.exit.place {
        return Ok(Journey::Same(leg));
    }
    let mut run = Run::new(alloc, leg);
    add_legs(&mut run, later)?;
    Ok(Journey::Run(run))
}

/// The journey of its first tap and the others. An `Err` is out of memory.
fn journey_of_taps(alloc: Global, tap: &Touch, others: &[Touch]) -> Result<Journey, AllocError>
    ensures { IfOk result (λ one. one ≡ journey_of_taps tap.now others.now) }
{
    match others {
        [] => Ok(Journey::Lone(*tap)),
        [exit, later @ ..] => {
            let leg = Leg {
                entry: *tap,
                exit: *exit,
            };
            journey_of_leg(alloc, leg, later)
        }
    }
}

/// The journeys of taps by their marks: from each start to before the next. An `Err` is out of memory.
pub(crate) fn journeys_by_marks(
    alloc: Global,
    marks: &[bool],
    taps: &[Touch],
) -> Result<Vec<Journey>, AllocError>
    requires { length marks.now ≡ length taps.now }
    ensures { IfOk result (λ list. list.items ≡ journeys_by_marks marks.now taps.now) }
{
    let mut list = Vec::with_capacity(alloc, taps.len())?;
    for place in 0..taps.len() {
        let (Some(is_start), Some(tap)) = (item_at(marks, place), item_at(taps, place)) else {
            unreachable!()
        };
        if is_start {
            let others = until_start(rest_from(marks, place + 1), rest_from(taps, place + 1));
            list.push(journey_of_taps(alloc, &tap, others)?)?;
        }
    }
    Ok(list)
}
