//! What is kept of an account beside what it has accepted: its effective taps in order with a mark each, and the sums of its days.
ghost use Rattle.std.specs.Prelude.{◌≡◌, ◌≤◌, ◌<◌, ◌+◌, ◌*◌, [], ◌∷◌, List, length, true, false, if◌then◌else◌, Some, slice_get, OnOk, IfOk};
ghost use Rattle.std.specs.List.{insert, remove};
ghost use Rattle.pay_rules.specs.declared.limits.TheConstants.{MOST_TOUCHES};
ghost use Rattle.pay_taps.specs.Words.{place_of};
ghost use Rattle.pay_rules.specs.Order.{put_in, HaveOwnNumbers};
ghost use Rattle.pay_tables.specs.Words.{FareEditions};
ghost use Rattle.pay_rules.specs.declared.journey.Journey.{Journey};
ghost use Rattle.pay_book.specs.Boardings.{IsDisturbed as AreDisturbed};
ghost use Rattle.pay_book.specs.Disturbed.{disturbed_by_rail, disturbed_by_bus};
ghost use Rattle.pay_book.specs.Fewer.{fewer_of, more_of};
ghost use Rattle.pay_book.specs.Days.{AreSummed};
ghost use Rattle.pay_fix.specs.declared.change.Change.TheVariants as Change;
ghost use Rattle.pay_rules.specs.Journeys.{is_bus, is_rail};
ghost use Rattle.pay_book.specs.MarkedTaps.{IsRight, IsMarkedBy, HasRoomByRail, HasRoomOnBuses, AreAsBefore, IsPossible, IsPrepared, IsPreparedFor, taps_after, disturbed_by, disturbed_by_change};
ghost use Rattle.pay_book.specs.Rail.{IsDisturbed, IsDisturbedBy};

use crate::boardings::Boardings;
use crate::day_sums::DaySums;
use crate::put_in::put_in;
use crate::rail::Disturbed;
use crate::{boardings, days, laws, rail};
use pay_fix::Change;
use pay_rules::{Journey, Kind, Touch};
use pay_tables::Editions;
use pay_taps::{Steps, Timeline};
use smallvec::SmallVec;
use std::alloc::{AllocError, Global};

/// So many marks lie in what is kept itself.
const FEW: usize = 16;

/// The effective taps of an account by rail, with a mark where a journey starts, and those on buses, with a mark where one pays; and
/// of each day on which a journey began the sums of its fares.
#[derive(Drop)]
pub(crate) struct MarkedTaps {
    pub(crate) rail: Timeline,
    pub(crate) starts: SmallVec<bool, FEW>,
    pub(crate) buses: Timeline,
    pub(crate) pays: SmallVec<bool, FEW>,
    pub(crate) days: DaySums,
}

/// What a tap that enters or leaves disturbs.
#[derive(Drop)]
pub(crate) enum Repair {
    /// None does.
    Nothing,
    /// A tap by rail, which changes these journeys.
    Rail(Disturbed),
    /// A tap on a bus, which changes these boardings.
    Bus(Boardings),
}

/// The journeys that there are next: those without a tap where it was there, and else those with it.
fn pick<'a>(fewer: &'a [Journey], more: &'a [Journey], is_there: bool) -> &'a [Journey]
    ensures { result.now ≡ (if is_there then fewer.now else more.now) }
{
    if is_there { fewer } else { more }
}

impl MarkedTaps {
    /// What is kept of an account that has no effective taps.
    pub(crate) fn new(alloc: Global) -> MarkedTaps
        ensures { (editions : FareEditions) → IsMarkedBy editions [] result }
    {
        pay_caps::laws::sums();
        MarkedTaps {
            rail: Timeline::new(alloc),
            starts: SmallVec::new(alloc),
            buses: Timeline::new(alloc),
            pays: SmallVec::new(alloc),
            days: DaySums::new(alloc),
        }
    }

    /// Makes room for a tap more by rail. An `Err` is out of memory.
    fn reserve_by_rail(&mut self) -> Result<(), AllocError>
        ensures same { AreAsBefore self.old self.new }
        ensures right { (editions : FareEditions) → IsRight editions self.old → IsRight editions self.new }
        ensures room { OnOk result (HasRoomByRail self.new) }
    {
        self.rail.reserve()?;
        self.starts.reserve(1)
    }

    /// Makes room for one more on a bus. An `Err` is out of memory.
    fn reserve_on_buses(&mut self) -> Result<(), AllocError>
        ensures same { AreAsBefore self.old self.new }
        ensures right { (editions : FareEditions) → IsRight editions self.old → IsRight editions self.new }
        ensures room { OnOk result (HasRoomOnBuses self.new) }
    {
        self.buses.reserve()?;
        self.pays.reserve(1)
    }

    /// Finds the journeys that a rail tap disturbs as it enters, or as it leaves where it is there, and makes room for it and for the
    /// sums of their days. Nothing changes that is told. An `Err` is out of memory.
    fn prepare_rail(
        &mut self,
        alloc: Global,
        editions: &Editions,
        touch: &Touch,
        is_there: bool,
        steps: &mut Steps,
    ) -> Result<Disturbed, AllocError>
        requires right { IsRight editions.now self.old }
        requires there { is_there ≡ true → slice_get self.old.rail.touches (place_of touch.now self.old.rail.touches) ≡ Some touch.now }
        ensures same { AreAsBefore self.old self.new }
        ensures right { IsRight editions.now self.new }
        ensures room { OnOk result (HasRoomByRail self.new) }
        ensures opened { IfOk result (λ found. AreSummed self.new.days (if is_there then found.fewer.items else found.more.items)) }
        ensures disturbed { IfOk result (λ found. IsDisturbedBy editions.now self.old.rail.touches touch.now is_there found.fewer.items found.more.items) }
        ensures rises { steps.old ≤ steps.new }
        ensures steps { OnOk result (steps.new ≤ steps.old + 8 + 2 * disturbed_by_rail editions.now (more_of is_there touch.now self.old.rail.touches) (place_of touch.now self.old.rail.touches)) }
    {
        self.reserve_by_rail()?;
        let found = rail::disturbed_by(
            alloc,
            editions,
            &self.rail,
            &self.starts,
            touch,
            is_there,
            steps,
        )?;
        self.open(pick(&found.fewer, &found.more, is_there))?;
        Ok(found)
    }

    /// The same of a bus tap, and the boardings that it disturbs.
    fn prepare_bus(
        &mut self,
        alloc: Global,
        editions: &Editions,
        touch: &Touch,
        is_there: bool,
        steps: &mut Steps,
    ) -> Result<Boardings, AllocError>
        requires right { IsRight editions.now self.old }
        requires there { is_there ≡ true → slice_get self.old.buses.touches (place_of touch.now self.old.buses.touches) ≡ Some touch.now }
        ensures same { AreAsBefore self.old self.new }
        ensures right { IsRight editions.now self.new }
        ensures room { OnOk result (HasRoomOnBuses self.new) }
        ensures opened { IfOk result (λ found. AreSummed self.new.days (if is_there then found.fewer.items else found.more.items)) }
        ensures within { OnOk result (place_of touch.now self.old.buses.touches ≤ length self.new.pays.items) }
        ensures inside { OnOk result (is_there ≡ true → place_of touch.now self.old.buses.touches < length self.new.pays.items) }
        ensures disturbed { let fewer = fewer_of is_there (place_of touch.now self.old.buses.touches) self.old.buses.touches in
            IfOk result (λ found. AreDisturbed editions.now.own.rules.hopper fewer touch.now found.fewer.items found.more.items) }
        ensures rises { steps.old ≤ steps.new }
        ensures steps { OnOk result (steps.new ≤ steps.old + 2 + disturbed_by_bus editions.now.own.rules.hopper (more_of is_there touch.now self.old.buses.touches) (place_of touch.now self.old.buses.touches)) }
    {
        pay_taps::laws::places();
        self.reserve_on_buses()?;
        self.buses.len();
        let found = boardings::disturbed(
            alloc,
            editions.own(),
            &self.buses,
            &self.pays,
            touch,
            is_there,
            steps,
        )?;
        self.open(pick(found.fewer.as_slice(), found.more.as_slice(), is_there))?;
        Ok(found)
    }

    /// Keeps sums of the days of these journeys, and changes none. An `Err` is out of memory.
    fn open(&mut self, journeys: &[Journey]) -> Result<(), AllocError>
        ensures same { AreAsBefore self.old self.new }
        ensures room_by_rail { HasRoomByRail self.old → HasRoomByRail self.new }
        ensures room_on_buses { HasRoomOnBuses self.old → HasRoomOnBuses self.new }
        ensures right { (editions : FareEditions) → IsRight editions self.old → IsRight editions self.new }
        ensures opened { OnOk result (AreSummed self.new.days journeys.now) }
    {
        days::open_all(&mut self.days, journeys)
    }

    /// Puts in a rail tap, which disturbs these journeys.
    fn enter_rail(
        &mut self,
        editions: &Editions,
        touch: Touch,
        found: &Disturbed,
        steps: &mut Steps,
    )
        requires right { IsRight editions.now self.old }
        requires room { HasRoomByRail self.old }
        requires own_number { HaveOwnNumbers (touch ∷ self.old.rail.touches) }
        requires few { length self.old.rail.touches + length self.old.buses.touches < MOST_TOUCHES }
        requires held { AreSummed self.old.days found.now.more.items }
        requires disturbed { IsDisturbed editions.now self.old.rail.touches (put_in touch self.old.rail.touches) found.now.fewer.items found.now.more.items }
        ensures right { IsRight editions.now self.new }
        ensures rail { self.new.rail.touches ≡ put_in touch self.old.rail.touches }
        ensures buses { self.new.buses.touches ≡ self.old.buses.touches }
        ensures rises { steps.old ≤ steps.new }
        ensures steps { steps.new ≤ steps.old + 16 }
    {
        pay_taps::laws::places();
        pay_links::laws::each_tap();
        let place = self.rail.insert(touch);
        put_in(&mut self.starts, place, true);
        rail::mark_again(editions, &self.rail, &mut self.starts, place, steps);
        days::replace(&mut self.days, editions, &found.fewer, &found.more);
    }

    /// Takes out a rail tap, which disturbs these journeys.
    fn leave_rail(
        &mut self,
        editions: &Editions,
        touch: &Touch,
        found: &Disturbed,
        steps: &mut Steps,
    )
        requires right { IsRight editions.now self.old }
        requires there { slice_get self.old.rail.touches (place_of touch.now self.old.rail.touches) ≡ Some touch.now }
        requires few { length self.old.rail.touches + length self.old.buses.touches ≤ MOST_TOUCHES }
        requires held { AreSummed self.old.days found.now.fewer.items }
        requires disturbed { IsDisturbed editions.now (remove self.old.rail.touches (place_of touch.now self.old.rail.touches)) self.old.rail.touches found.now.fewer.items found.now.more.items }
        ensures right { IsRight editions.now self.new }
        ensures rail { self.new.rail.touches ≡ remove self.old.rail.touches (place_of touch.now self.old.rail.touches) }
        ensures buses { self.new.buses.touches ≡ self.old.buses.touches }
        ensures rises { steps.old ≤ steps.new }
        ensures steps { steps.new ≤ steps.old + 16 }
    {
        pay_links::laws::each_tap();
        let place = self.rail.remove(touch);
        self.starts.remove(place);
        rail::mark_again(editions, &self.rail, &mut self.starts, place, steps);
        days::replace(&mut self.days, editions, &found.more, &found.fewer);
    }

    /// Puts in a bus tap, which disturbs these boardings.
    fn enter_bus(&mut self, editions: &Editions, touch: Touch, found: &Boardings)
        requires right { IsRight editions.now self.old }
        requires room { HasRoomOnBuses self.old }
        requires own_number { HaveOwnNumbers (touch ∷ self.old.buses.touches) }
        requires few { length self.old.rail.touches + length self.old.buses.touches < MOST_TOUCHES }
        requires held { AreSummed self.old.days found.now.more.items }
        requires within { place_of touch self.old.buses.touches ≤ length self.old.pays.items }
        requires disturbed { AreDisturbed editions.now.own.rules.hopper self.old.buses.touches touch found.now.fewer.items found.now.more.items }
        ensures right { IsRight editions.now self.new }
        ensures rail { self.new.rail.touches ≡ self.old.rail.touches }
        ensures buses { self.new.buses.touches ≡ put_in touch self.old.buses.touches }
    {
        pay_taps::laws::places();
        pay_links::laws::each_tap();
        laws::stored_marks();
        let place = self.buses.insert(touch);
        put_in(&mut self.pays, place, true);
        let (fewer, more) = (found.fewer.as_slice(), found.more.as_slice());
        boardings::mark(&mut self.pays, place, more);
        days::replace(&mut self.days, editions, fewer, more);
    }

    /// Takes out a bus tap, which disturbs these boardings.
    fn leave_bus(&mut self, editions: &Editions, touch: &Touch, found: &Boardings)
        requires right { IsRight editions.now self.old }
        requires there { slice_get self.old.buses.touches (place_of touch.now self.old.buses.touches) ≡ Some touch.now }
        requires few { length self.old.rail.touches + length self.old.buses.touches ≤ MOST_TOUCHES }
        requires held { AreSummed self.old.days found.now.fewer.items }
        requires within { place_of touch.now self.old.buses.touches < length self.old.pays.items }
        requires disturbed { AreDisturbed editions.now.own.rules.hopper (remove self.old.buses.touches (place_of touch.now self.old.buses.touches)) touch.now found.now.fewer.items found.now.more.items }
        ensures right { IsRight editions.now self.new }
        ensures rail { self.new.rail.touches ≡ self.old.rail.touches }
        ensures buses { self.new.buses.touches ≡ remove self.old.buses.touches (place_of touch.now self.old.buses.touches) }
    {
        pay_links::laws::each_tap();
        laws::stored_marks();
        pay_taps::laws::places();
        self.buses.len();
        let place = self.buses.remove(touch);
        self.pays.remove(place);
        let (fewer, more) = (found.fewer.as_slice(), found.more.as_slice());
        boardings::mark(&mut self.pays, place, fewer);
        days::replace(&mut self.days, editions, more, fewer);
    }

    /// What a tap disturbs that enters, or that leaves where it is there.
    fn prepare_tap(
        &mut self,
        alloc: Global,
        editions: &Editions,
        touch: &Touch,
        is_there: bool,
        steps: &mut Steps,
    ) -> Result<Repair, AllocError>
        requires right { IsRight editions.now self.old }
        requires rail { is_bus touch.now ≡ false → is_there ≡ true → slice_get self.old.rail.touches (place_of touch.now self.old.rail.touches) ≡ Some touch.now }
        requires buses { is_bus touch.now ≡ true → is_there ≡ true → slice_get self.old.buses.touches (place_of touch.now self.old.buses.touches) ≡ Some touch.now }
        ensures same { AreAsBefore self.old self.new }
        ensures right { IsRight editions.now self.new }
        ensures prepared { IfOk result (λ repair. IsPreparedFor editions.now self.new touch.now is_there repair) }
        ensures rises { steps.old ≤ steps.new }
        ensures steps { OnOk result (steps.new ≤ steps.old + 8 + 2 * disturbed_by editions.now self.old touch.now is_there) }
    {
        if touch.kind == Kind::Bus {
            let found = self.prepare_bus(alloc, editions, touch, is_there, steps)?;
            return Ok(Repair::Bus(found));
        }
        let found = self.prepare_rail(alloc, editions, touch, is_there, steps)?;
        Ok(Repair::Rail(found))
    }

    /// Puts in a tap, for which all is prepared. It takes no memory.
    fn enter(&mut self, editions: &Editions, touch: &Touch, repair: &Repair, steps: &mut Steps)
        requires right { IsRight editions.now self.old }
        requires possible { IsPossible self.old (Change.Enters touch.now) }
        requires prepared { IsPreparedFor editions.now self.old touch.now false repair.now }
        ensures right { IsRight editions.now self.new }
        ensures rail { self.new.rail.touches ≡ taps_after is_rail (Change.Enters touch.now) self.old.rail.touches }
        ensures buses { self.new.buses.touches ≡ taps_after is_bus (Change.Enters touch.now) self.old.buses.touches }
        ensures rises { steps.old ≤ steps.new }
        ensures steps { steps.new ≤ steps.old + 16 }
    {
        pay_taps::laws::places();
        match repair {
            Repair::Nothing => {}
            Repair::Rail(found) => self.enter_rail(editions, *touch, found, steps),
            Repair::Bus(found) => self.enter_bus(editions, *touch, found),
        }
    }

    /// Takes out a tap, for which all is prepared. It takes no memory.
    fn leave(&mut self, editions: &Editions, touch: &Touch, repair: &Repair, steps: &mut Steps)
        requires right { IsRight editions.now self.old }
        requires possible { IsPossible self.old (Change.Leaves touch.now) }
        requires prepared { IsPreparedFor editions.now self.old touch.now true repair.now }
        ensures right { IsRight editions.now self.new }
        ensures rail { self.new.rail.touches ≡ taps_after is_rail (Change.Leaves touch.now) self.old.rail.touches }
        ensures buses { self.new.buses.touches ≡ taps_after is_bus (Change.Leaves touch.now) self.old.buses.touches }
        ensures rises { steps.old ≤ steps.new }
        ensures steps { steps.new ≤ steps.old + 16 }
    {
        match repair {
            Repair::Nothing => {}
            Repair::Rail(found) => self.leave_rail(editions, touch, found, steps),
            Repair::Bus(found) => self.leave_bus(editions, touch, found),
        }
    }

    /// Finds what a change disturbs, and makes all that it needs. Nothing changes that is told. An `Err` is out of memory.
    pub(crate) fn prepare(
        &mut self,
        alloc: Global,
        editions: &Editions,
        change: &Change,
        steps: &mut Steps,
    ) -> Result<Repair, AllocError>
        requires right { IsRight editions.now self.old }
        requires possible { IsPossible self.old change.now }
        ensures same { AreAsBefore self.old self.new }
        ensures right { IsRight editions.now self.new }
        ensures prepared { IfOk result (λ repair. IsPrepared editions.now self.new change.now repair) }
        ensures rises { steps.old ≤ steps.new }
        ensures steps { OnOk result (steps.new ≤ steps.old + 8 + 2 * disturbed_by_change editions.now self.old change.now) }
    {
        match change {
            Change::Nothing => Ok(Repair::Nothing),
            Change::Enters(touch) => self.prepare_tap(alloc, editions, touch, false, steps),
            Change::Leaves(touch) => self.prepare_tap(alloc, editions, touch, true, steps),
        }
    }

    /// Makes a change, for which all is prepared. It takes no memory.
    pub(crate) fn apply(
        &mut self,
        editions: &Editions,
        change: &Change,
        repair: &Repair,
        steps: &mut Steps,
    )
        requires right { IsRight editions.now self.old }
        requires possible { IsPossible self.old change.now }
        requires prepared { IsPrepared editions.now self.old change.now repair.now }
        ensures right { IsRight editions.now self.new }
        ensures rail { self.new.rail.touches ≡ taps_after is_rail change.now self.old.rail.touches }
        ensures buses { self.new.buses.touches ≡ taps_after is_bus change.now self.old.buses.touches }
        ensures rises { steps.old ≤ steps.new }
        ensures steps { steps.new ≤ steps.old + 16 }
    {
        match change {
            Change::Nothing => {}
            Change::Enters(touch) => self.enter(editions, touch, repair, steps),
            Change::Leaves(touch) => self.leave(editions, touch, repair, steps),
        }
    }
}
