ghost use Rattle.std.specs.Prelude.{◌≡◌, ◌≤◌, ◌↔◌, suc, ◌∷◌, [], length, IsOk, IfOk, OnOk, IsTrue, Some, slice_get};
ghost use Rattle.std.specs.List.{remove};
ghost use Rattle.pay_rules.specs.Order.{comes_before, put_in, HaveOwnNumbers, IsInOrder};
ghost use Rattle.pay_taps.specs.Timelines.{AreTimed, place_of, touch_before, counted};

use crate::steps::Steps;
use pay_blocks::{Blocks, ComesAfter};
use pay_rules::Touch;
use std::alloc::{AllocError, Global};
use std::marker::Model;

/// Effective taps in order, each with a number of its own. In a contract it is these, and for how many more there is room.
#[derive(Drop)]
pub struct Timeline {
    touches: Blocks<Touch>,
}

impl Model for Timeline {
    ghost use Rattle.pay_taps.specs.Timelines.{TimelineParts, timeline_code, AreTimed};

    ghost Value = { TimelineParts };

    ghost coded = { timeline_code };

    ghost view = { λ t. record { touches = t.touches.items; room = t.touches.room } };

    ghost invariant = { λ t. AreTimed t.touches.items };
}

/// Whether a touch comes before another.
fn comes_before(one: &Touch, other: &Touch) -> bool
    ensures { result ≡ comes_before one.now other.now }
{
    (one.stamp.utc(), one.filled, one.first, one.second)
        < (other.stamp.utc(), other.filled, other.first, other.second)
}

/// A touch whose place is sought.
#[derive(Clone, Copy)]
struct Sought {
    touch: Touch,
}

impl ComesAfter<Touch> for Sought {
    ghost after = { λ sought other. comes_before other sought.touch };

    fn comes_after(&self, item: &Touch) -> bool {
        comes_before(item, &self.touch)
    }
}

impl Timeline {
    /// No taps.
    pub fn new(alloc: Global) -> Timeline
        ensures { result.touches ≡ [] }
    {
        Timeline {
            touches: Blocks::new(alloc),
        }
    }

    /// How many there are.
    pub fn len(&self) -> usize
        ensures value { result ≡ length self.now.touches }
        ensures timed { AreTimed self.now.touches }
    {
        self.touches.len()
    }

    /// Whether there is none.
    pub fn is_empty(&self) -> bool
        ensures { IsTrue result ↔ (self.now.touches ≡ []) }
    {
        self.touches.is_empty()
    }

    /// All taps, copied. An `Err` is out of memory.
    pub fn list(&self, alloc: Global) -> Result<Vec<Touch>, AllocError>
        ensures { IfOk result (λ taps. taps.items ≡ self.now.touches) }
    {
        self.touches.list(alloc)
    }

    /// Makes room for one more. An `Err` is out of memory.
    pub fn reserve(&mut self) -> Result<(), AllocError>
        ensures touches { self.new.touches ≡ self.old.touches }
        ensures room { OnOk result (1 ≤ self.new.room) }
        ensures there { 1 ≤ self.old.room → IsOk result }
    {
        self.touches.reserve()
    }

    /// How many taps come before one: where it stands, or would stand.
    pub fn place(&self, touch: &Touch) -> usize
        ensures place { result ≡ place_of touch.now self.now.touches }
        ensures within { result ≤ length self.now.touches }
    {
        self.touches.place(&Sought { touch: *touch })
    }

    /// Puts in a tap whose number none has yet, and answers its place. It takes no memory.
    pub fn insert(&mut self, touch: Touch) -> usize
        requires room { 1 ≤ self.old.room }
        requires own_number { HaveOwnNumbers (touch ∷ self.old.touches) }
        ensures place { result ≡ place_of touch self.old.touches }
        ensures within { result ≤ length self.old.touches }
        ensures after { self.new.touches ≡ put_in touch self.old.touches }
    {
        let place = self.place(&touch);
        self.touches.insert(place, touch);
        place
    }

    /// Takes out a tap that is there, and answers its place.
    pub fn remove(&mut self, touch: &Touch) -> usize
        requires there { slice_get self.old.touches (place_of touch.now self.old.touches) ≡ Some touch.now }
        ensures place { result ≡ place_of touch.now self.old.touches }
        ensures after { self.new.touches ≡ remove self.old.touches result }
    {
        let place = self.place(touch);
        self.touches.remove(place);
        place
    }

    /// The tap at a place.
    pub fn at(&self, place: usize, steps: &mut Steps) -> Option<Touch>
        ensures value { result ≡ slice_get self.now.touches place }
        ensures steps { steps.new ≡ counted result steps.old }
        ensures rises { steps.old ≤ steps.new }
    {
        let found = self.touches.get(place);
        steps.add(&found);
        found
    }

    /// The tap right before a place.
    pub fn before(&self, place: usize, steps: &mut Steps) -> Option<Touch>
        ensures value { result ≡ touch_before self.now.touches place }
        ensures steps { steps.new ≡ counted result steps.old }
        ensures rises { steps.old ≤ steps.new }
    {
        if place == 0 {
            return None;
        }
        self.at(place - 1, steps)
    }

    /// The tap right after a place.
    pub fn after(&self, place: usize, steps: &mut Steps) -> Option<Touch>
        ensures value { result ≡ slice_get self.now.touches (suc place) }
        ensures steps { steps.new ≡ counted result steps.old }
        ensures rises { steps.old ≤ steps.new }
    {
        if place >= self.touches.len() {
            return None;
        }
        self.at(place + 1, steps)
    }
}
