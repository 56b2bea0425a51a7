ghost use Rattle.std.specs.Prelude.{◌≡◌, ◌+◌, ◌≤◌, ◌<◌, ◌∷◌, [], suc, true, false, ◌++◌, ◌&&◌, List, Some, if◌then◌else◌, length, map, take, drop, slice_get, IfOk, IfSome, OnOk, MatchOption};
ghost use Rattle.std.specs.List.{zip};
ghost use Rattle.std.specs.Option.{option_map};
ghost use Rattle.pay_rules.specs.declared.tap.Touch.{Touch};
ghost use Rattle.pay_taps.specs.Words.{place_of, AreTimed};
ghost use Rattle.pay_hopper.specs.Words.{pays_by_last, marks_by_last, last_paid_over};
ghost use Rattle.pay_rules.specs.Journeys.{boarding};
ghost use Rattle.pay_book.specs.Boardings.{boarded_after, IsDisturbed, is_paying, marked};
ghost use Rattle.pay_book.specs.Fewer.{fewer_of};
ghost use Rattle.pay_book.specs.Stretches.{with_later, Meet, HaveGoneOn};

use crate::by_marks::item_at;
use crate::journey_list::JourneyList;
use pay_day::Moment;
use pay_rules::{Journey, Touch};
use pay_tables::Tables;
use pay_taps::{Steps, Timeline};
use std::alloc::{AllocError, Global};

/// What of an account's boardings a bus tap that enters or leaves disturbs.
#[derive(Drop)]
pub(crate) struct Boardings {
    /// The disturbed boardings without the tap.
    pub fewer: JourneyList,
    /// Those in their place with the tap: it is the first of them.
    pub more: JourneyList,
}

/// Boardings one after another, and the moment of the last one up to them that paid.
#[derive(Drop)]
struct Stretch {
    boardings: JourneyList,
    last_paid: Option<Moment>,
}

impl Stretch {
    /// No boarding yet.
    fn new(alloc: Global, last_paid: &Option<Moment>) -> Stretch
        ensures none { result.boardings.items ≡ [] }
        ensures last_paid { result.last_paid ≡ last_paid.now }
    {
        Stretch {
            boardings: JourneyList::new(alloc),
            last_paid: *last_paid,
        }
    }

    /// Whether a tap pays after these.
    fn pays(&self, tables: &Tables, tap: &Touch) -> bool
        ensures { result ≡ pays_by_last tables.now.rules.hopper self.now.last_paid tap.now.stamp.utc }
    {
        pay_hopper::pays(tables, &self.last_paid, tap)
    }

    /// Boards a tap after these. An `Err` is out of memory.
    fn board(&mut self, tables: &Tables, tap: &Touch) -> Result<(), AllocError>
        ensures boarded { OnOk result (self.new.boardings.items ≡ self.old.boardings.items ++ boarding (tap.now, pays_by_last tables.now.rules.hopper self.old.last_paid tap.now.stamp.utc) ∷ []) }
        ensures later { OnOk result ((later : List Touch) → with_later tables.now.rules.hopper self.old (tap.now ∷ later) ≡ with_later tables.now.rules.hopper self.new later) }
    {
        let pays = self.pays(tables, tap);
        self.boardings.push(Journey::Bus { tap: *tap, pays })?;
        if pays {
            self.last_paid = Some(tap.stamp);
        }
        Ok(())
    }
}

/// The moment of the tap at a place.
fn moment_at(buses: &Timeline, place: usize, steps: &mut Steps) -> Option<Moment>
    ensures value { result ≡ option_map (λ tap. tap.stamp) (slice_get buses.now.touches place) }
    ensures rises { steps.old ≤ steps.new }
    ensures steps { steps.new ≤ steps.old + 1 }
{
    buses.at(place, steps).map(|tap| tap.stamp)
}

/// The moment of the last tap before a place that pays, found from the end by the marks.
fn last_paid_before(
    tables: &Tables,
    buses: &Timeline,
    pays: &[bool],
    place: usize,
    steps: &mut Steps,
) -> Option<Moment>
    requires marks { pays.now ≡ marks_by_last tables.now.rules.hopper None buses.now.touches }
    requires within { place ≤ length buses.now.touches }
    ensures value { result ≡ last_paid_over tables.now.rules.hopper None (take place buses.now.touches) }
    ensures rises { steps.old ≤ steps.new }
    ensures steps { steps.new ≤ steps.old + 1 }
{
    pay_hopper::laws::last_paid_by_marks();
    for before in (0..place).rev() {
        if pays[before] {
            return moment_at(buses, before, steps);
        }
    }
    None
}

/// The tap at a place, unless it pays after both stretches: it and all after it are then as they were.
fn disturbed_at(
    tables: &Tables,
    buses: &Timeline,
    place: usize,
    fewer: &Stretch,
    more: &Stretch,
    steps: &mut Steps,
) -> Option<Touch>
    ensures once { IfSome result (λ tap.
        (pays_by_last tables.now.rules.hopper fewer.now.last_paid tap.stamp.utc
        && pays_by_last tables.now.rules.hopper more.now.last_paid tap.stamp.utc)
        ≡ false) }
    ensures rises { steps.old ≤ steps.new }
    ensures steps { steps.new ≤ steps.old + 1 }
    ensures answer { MatchOption
        result
        (boarded_after tables.now.rules.hopper fewer.now.last_paid (drop place buses.now.touches)
        ≡ boarded_after tables.now.rules.hopper more.now.last_paid (drop place buses.now.touches))
        (λ tap. slice_get buses.now.touches place ≡ Some tap) }
{
    pay_hopper::laws::paying_taps_restart();
    let tap = buses.at(place, steps)?;
    if fewer.pays(tables, &tap) && more.pays(tables, &tap) {
        return None;
    }
    Some(tap)
}

/// Boards the taps from a place on after both stretches, up to the first that pays after both. An
/// `Err` is out of memory.
fn board_disturbed(
    tables: &Tables,
    buses: &Timeline,
    first: usize,
    fewer: &mut Stretch,
    more: &mut Stretch,
    steps: &mut Steps,
) -> Result<(), AllocError>
    requires { first ≤ length buses.now.touches }
    ensures rises { steps.old ≤ steps.new }
    ensures steps { OnOk result (steps.new + length fewer.old.boardings.items ≤ steps.old + length fewer.new.boardings.items + 1) }
    ensures gone_on { OnOk result (HaveGoneOn (fewer.old, more.old) (fewer.new, more.new)) }
    ensures meet { OnOk result (Meet tables.now.rules.hopper (drop first buses.now.touches) (fewer.old, more.old) (fewer.new, more.new)) }
{
    for place in first..buses.len() {
        let Some(tap) = disturbed_at(tables, buses, place, fewer, more, steps) else {
            return Ok(());
        };
        fewer.board(tables, &tap)?;
        more.board(tables, &tap)?;
    }
    Ok(())
}

/// The place after the tap that stands at this one, and this place itself where it doesn't stand there yet.
fn first_after(buses: &Timeline, place: usize, is_there: bool) -> usize
    requires within { place ≤ length buses.now.touches }
    requires there { is_there ≡ true → place < length buses.now.touches }
    ensures value { result ≡ (if is_there then suc place else place) }
    ensures within { result ≤ length buses.now.touches }
    ensures timed { AreTimed buses.now.touches }
{
    // what is there stands before the end, so that one more is a place too
    if place < buses.len() && is_there {
        place + 1
    } else {
        place
    }
}

/// What a bus tap that enters or leaves disturbs. `buses` are the taps of before, `pays` has the mark of
/// each, and `is_there` says whether the tap is one of them. An `Err` is out of memory.
pub(crate) fn disturbed(
    alloc: Global,
    tables: &Tables,
    buses: &Timeline,
    pays: &[bool],
    touch: &Touch,
    is_there: bool,
    steps: &mut Steps,
) -> Result<Boardings, AllocError>
    requires marks { pays.now ≡ marks_by_last tables.now.rules.hopper None buses.now.touches }
    requires there { is_there ≡ true → slice_get buses.now.touches (place_of touch.now buses.now.touches) ≡ Some touch.now }
    ensures within { IfOk result (λ found. place_of touch.now buses.now.touches ≤ length pays.now) }
    ensures there { IfOk result (λ found. is_there ≡ true → place_of touch.now buses.now.touches < length pays.now) }
    ensures rises { steps.old ≤ steps.new }
    ensures steps { IfOk result (λ found. steps.new ≤ steps.old + length found.fewer.items + 2) }
    ensures disturbed { let fewer = fewer_of is_there (place_of touch.now buses.now.touches) buses.now.touches in
        IfOk result (λ found. IsDisturbed tables.now.rules.hopper fewer touch.now found.fewer.items found.more.items) }
{
    pay_taps::laws::places();
    let place = buses.place(touch);
    let first = first_after(buses, place, is_there);
    let last_paid = last_paid_before(tables, buses, pays, place, steps);
    let mut fewer = Stretch::new(alloc, &last_paid);
    let mut more = Stretch::new(alloc, &last_paid);
    more.board(tables, touch)?;
    board_disturbed(tables, buses, first, &mut fewer, &mut more, steps)?;
    Ok(Boardings {
        fewer: fewer.boardings,
        more: more.boardings,
    })
}

/// Whether a journey is a boarding that pays.
fn is_paying(journey: &Journey) -> bool
    ensures { result ≡ is_paying journey.now }
{
    match journey {
        Journey::Bus { pays, .. } => *pays,
        _ => false,
    }
}

/// Puts the marks of these boardings in the place of those that stand from a place on. It takes no memory.
pub(crate) fn mark(pays: &mut [bool], place: usize, boardings: &[Journey])
    requires { place + length boardings.now ≤ length pays.old }
    ensures { pays.new ≡ marked pays.old place boardings.now }
{
    for (index, boarding) in boardings.iter().enumerate() {
        pays[place + index] = is_paying(boarding);
    }
}

/// Adds all boardings, each with its mark. An `Err` is out of memory.
pub(crate) fn add_all(
    alloc: Global,
    list: &mut Vec<Journey>,
    buses: &Timeline,
    pays: &[bool],
) -> Result<(), AllocError>
    requires { length pays.now ≡ length buses.now.touches }
    ensures { OnOk result (list.new.items ≡ list.old.items ++ map boarding (zip buses.now.touches pays.now)) }
{
    let taps = buses.list(alloc)?;
    list.reserve(taps.len())?;
    for place in 0..taps.len() {
        let (Some(tap), Some(pays)) = (item_at(&taps, place), item_at(pays, place)) else {
            unreachable!()
        };
        list.push(Journey::Bus { tap, pays })?;
    }
    Ok(())
}
