ghost use Rattle.std.specs.Prelude.{◌≡◌, ◌≤◌, ◌<◌, ◌+◌, ◌^◌, ◌↔◌, [], ℕ, IsSome, IsTrue, Some, ◌-◌, cond, length, take, drop, option_map, slice_get, OnOk};
ghost use Rattle.std.specs.BTreeMap.{is_at};
ghost use Rattle.std.specs.List.{range_with_len, zip};
ghost use Rattle.std.specs.Ordering.{nat_cmp};
ghost use Rattle.pay_money.specs.declared.limits.TheConstants.{MOST_MONEY};
ghost use Rattle.pay_tables.specs.declared.limits.TheConstants.{MOST_ZONES};
ghost use Rattle.pay_caps.specs.Words.{IsCell, added, taken, sum_at, total};
ghost use Rattle.pay_book.specs.Days.{stored_on, stored_of, sums_on, StaySummed};
ghost use Rattle.pay_book.specs.InStep.{AreRising, IsPlaceOf};

use crate::put_in::put_in;
use pay_caps::{Cell, Cells};
use pay_money::Pence;
use smallvec::SmallVec;
use std::alloc::{AllocError, Global};
use std::marker::Model;

/// Days in ascending order, each with the sums of its fares. In a contract it is the list of both. The
/// first day lies in the value itself: most accounts have one for a long time.
#[derive(Drop)]
pub(crate) struct DaySums {
    days: SmallVec<u32, 8>,
    // Apart from the days, so that a search reads these alone.
    sums: SmallVec<Cells, 1>,
}

impl Model for DaySums {
    ghost use Rattle.std.specs.Prelude.{ℕ, List};
    ghost use Rattle.std.specs.Coded.{coded_list, coded×, coded_ℕ};
    ghost use Rattle.std.specs.List.{zip};
    ghost use Rattle.pay_caps.specs.CellSums.{CellSums, sums_code};
    ghost use Rattle.pay_book.specs.InStep.{AreInStep};

    ghost Value = { List (ℕ × CellSums) };

    ghost coded = { coded_list (coded× coded_ℕ sums_code) };

    ghost view = { λ d. zip d.days.items d.sums.items };

    ghost invariant = { λ d. AreInStep d.days.items d.sums.items };
}

/// Where a day stands among days in order, or would stand.
fn place_in(days: &[u32], day: u32) -> usize
    requires { AreRising days.now }
    ensures place { IsPlaceOf day days.now result }
    ensures within { result ≤ length days.now }
{
    days.partition_point(|other| *other < day)
}

/// Whether a day stands at a place.
fn stands_at(days: &[u32], place: usize, day: u32) -> bool
    ensures { IsTrue result ↔ (slice_get days.now place ≡ Some day) }
{
    match days.get(place) {
        Some(other) => *other == day,
        None => false,
    }
}

/// The items from a place on, as far as before another.
fn between<T>(items: &[T], from: usize, to: usize) -> &[T]
    requires { (from ≤ to) × (to ≤ length items.now) }
    ensures { result.now ≡ take (to - from) (drop from items.now) }
{
    &items[from..to]
}

impl DaySums {
    /// No days.
    pub(crate) fn new(alloc: Global) -> DaySums
        ensures { result ≡ [] }
    {
        DaySums {
            days: SmallVec::new(alloc),
            sums: SmallVec::new(alloc),
        }
    }

    /// The sums of a day, where they are kept.
    pub(crate) fn get(&self, day: u32) -> Option<&Cells>
        ensures { option_map (λ cells. cells.now) result ≡ stored_on self.now day }
    {
        let place = place_in(&self.days, day);
        if stands_at(&self.days, place, day) {
            Some(&self.sums[place])
        } else {
            None
        }
    }

    /// Those of so many days from one on of which sums are kept, in their order, and the sums.
    pub(crate) fn of_days(&self, first: u32, count: u32) -> (&[u32], &[Cells])
        requires { first + count < 2 ^ 32 }
        ensures held { zip result.0.now result.1.now ≡ stored_of self.now (range_with_len first count) }
        ensures beside { length result.0.now ≡ length result.1.now }
        ensures few { length result.1.now ≤ count }
    {
        let from = place_in(&self.days, first);
        let to = place_in(&self.days, first + count);
        (between(&self.days, from, to), between(&self.sums, from, to))
    }

    /// Adds a fare to the sums of a day, which are kept.
    pub(crate) fn add(&mut self, day: u32, cell: Cell, fare: Pence)
        requires held { IsSome (stored_on self.old day) }
        requires is_cell { IsCell MOST_ZONES cell }
        requires fits { total (sums_on self.old day) + fare ≤ MOST_MONEY }
        ensures sums { (other : ℕ) → stored_on self.new other ≡ cond (is_at (nat_cmp day) other) (Some (added cell fare (sums_on self.old day))) (stored_on self.old other) }
        ensures in_range { (other : ℕ) → total (sums_on self.new other) ≤ total (sums_on self.old other) + fare }
    {
        let place = place_in(&self.days, day);
        self.sums[place].add(cell, fare);
    }

    /// Takes a fare from the sums of a day, which are kept.
    pub(crate) fn take(&mut self, day: u32, cell: Cell, fare: Pence)
        requires held { IsSome (stored_on self.old day) }
        requires is_cell { IsCell MOST_ZONES cell }
        requires there { fare ≤ sum_at cell (sums_on self.old day) }
        ensures { (other : ℕ) → stored_on self.new other ≡ cond (is_at (nat_cmp day) other) (Some (taken cell fare (sums_on self.old day))) (stored_on self.old other) }
    {
        let place = place_in(&self.days, day);
        self.sums[place].take(cell, fare);
    }

    /// Keeps sums of a day: no fares, where none were kept. An `Err` is out of memory.
    pub(crate) fn open(&mut self, day: u32) -> Result<(), AllocError>
        ensures same { (other : ℕ) → sums_on self.new other ≡ sums_on self.old other }
        ensures held { StaySummed self.old self.new }
        ensures open { OnOk result (IsSome (stored_on self.new day)) }
    {
        let place = place_in(&self.days, day);
        if stands_at(&self.days, place, day) {
            return Ok(());
        }
        self.days.reserve(1)?;
        self.sums.reserve(1)?;
        put_in(&mut self.days, place, day);
        put_in(&mut self.sums, place, Cells::new());
        Ok(())
    }
}
