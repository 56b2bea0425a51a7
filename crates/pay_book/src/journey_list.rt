ghost use Rattle.std.specs.Prelude.{◌≡◌, ◌∷◌, ◌++◌, [], OnOk};

use pay_rules::Journey;
use std::alloc::{AllocError, Global};
use std::marker::Model;
use std::mem::replace;
use std::slice::from_ref;

/// Journeys in order. One alone lies in the list itself: most taps disturb no other journey. In a contract it is these.
#[derive(Drop)]
pub(crate) struct JourneyList {
    alone: Option<Journey>,
    // All of them, where none is alone.
    all: Vec<Journey>,
}

impl Model for JourneyList {
    ghost use Rattle.std.specs.Prelude.{◌≡◌, [], IfSome};
    ghost use Rattle.pay_book.specs.JourneyLists.{JourneyItems, journey_items_code, journeys_kept};

    ghost Value = { JourneyItems };

    ghost coded = { journey_items_code };

    ghost view = { λ l. record { items = journeys_kept l.alone l.all.items } };

    ghost invariant = { λ l. IfSome l.alone (λ _. l.all.items ≡ []) };
}

impl JourneyList {
    /// No journeys. It takes no memory.
    pub(crate) fn new(alloc: Global) -> JourneyList
        ensures { result.items ≡ [] }
    {
        JourneyList {
            alone: None,
            all: Vec::new(alloc),
        }
    }

    /// One more, after the others. After an `Err`, which is out of memory, the list is of no further use.
    pub(crate) fn push(&mut self, journey: Journey) -> Result<(), AllocError>
        ensures { OnOk result (self.new.items ≡ self.old.items ++ journey ∷ []) }
    {
        match replace(&mut self.alone, None) {
            Some(first) => {
                self.all.push(first)?;
                self.all.push(journey)?;
            }
            None if self.all.is_empty() => self.alone = Some(journey),
            None => self.all.push(journey)?,
        }
        Ok(())
    }

    /// The journeys.
    pub(crate) fn as_slice(&self) -> &[Journey]
        ensures value { result.now ≡ self.now.items }
    {
        match &self.alone {
            Some(journey) => from_ref(journey),
            None => &self.all,
        }
    }
}
