ghost use Rattle.std.specs.Prelude.{◌≡◌, ◌^◌, ◌≤◌, ◌<◌, ◌↔◌, length, take, drop, IsTrue, IfOk, IfSome, OnOk, OnErr};
ghost use Rattle.std.specs.FinMap as map;
ghost use Rattle.std.specs.Ordering.{is_lt};
ghost use Rattle.pay_numbered.specs.Sound.{IsRising, IsSought, IsPlace, IsPlaceFor};
ghost use Rattle.pay_rules.specs.Numbers.{IsNumbered, number_cmp, IsJudged, set_after};

use crate::fronted_list::FrontedList;
use pay_blocks::ComesAfter;
use pay_rules::{Addition, AdditionFault, Numbered};
use std::alloc::{AllocError, Global};
use std::default::MadeWith;
use std::marker::Model;

/// A set of at most `MOST` that have numbers of their own. In a contract it is the finite map from each
/// number to what has it. Up to `INLINE` lie in the set itself, and the others in blocks, so that one more moves no
/// more than a block, however many there are.
#[derive(Drop)]
pub struct NumberedBlocks<T: Numbered, const MOST: usize, const INLINE: usize> {
    // In ascending order of their numbers.
    items: FrontedList<T, INLINE>,
}

impl<T: Numbered, const MOST: usize, const INLINE: usize> Model
    for NumberedBlocks<T, MOST, INLINE> {
    ghost use Rattle.std.specs.FinMap as map;
    ghost use Rattle.std.specs.Coded.{coded×, coded_ℕ};
    ghost use Rattle.pay_rules.specs.Numbers.{ByNumber};
    ghost use Rattle.pay_numbered.specs.Sound.{set_of, IsSound};

    ghost Value = { ByNumber T };

    ghost coded = { map.code (coded× coded_ℕ coded_ℕ) T.code };

    ghost view = { λ set. set_of T.number set.items };

    ghost invariant = { λ set. IsSound T.number MOST set.items };
}

/// A number that is sought.
#[derive(Drop)]
struct Number {
    first: u16,
    second: u32,
}

impl<T: Numbered> ComesAfter<T> for Number {
    ghost after = { λ sought item. is_lt (number_cmp (T.number item) (sought.first, sought.second)) };

    fn comes_after(&self, item: &T) -> bool {
        item.number() < (self.first, self.second)
    }
}

/// Where a number stands among what has ascending numbers, and what has it, or else where it would stand.
fn sought<T: Numbered + MadeWith<Global>, const INLINE: usize>(
    items: &FrontedList<T, INLINE>,
    number: (u16, u32),
) -> Result<(usize, T), usize>
    requires rising { IsRising T.number items.now }
    requires few { length items.now < 2 ^ 64 }
    ensures { IsSought T.number number items.now result }
{
    let place = items.place(&Number {
        first: number.0,
        second: number.1,
    });
    let Some(item) = items.get(place) else {
        return Err(place);
    };
    if item.number() == number {
        Ok((place, item))
    } else {
        Err(place)
    }
}

impl<T: Numbered + MadeWith<Global>, const MOST: usize, const INLINE: usize> NumberedBlocks<
    T,
    MOST,
    INLINE,
> {
    /// None. It takes no memory.
    pub fn new(alloc: Global) -> NumberedBlocks<T, MOST, INLINE>
        ensures { result ≡ map.empty }
    {
        NumberedBlocks {
            items: FrontedList::new(alloc),
        }
    }

    /// How many there are.
    pub fn len(&self) -> usize
        ensures value { result ≡ map.len self.now }
        ensures numbered { IsNumbered T.number MOST self.now }
    {
        self.items.len()
    }

    /// Whether there is none.
    pub fn is_empty(&self) -> bool
        ensures { IsTrue result ↔ (self.now ≡ map.empty) }
    {
        self.len() == 0
    }

    /// The one whose number is this pair.
    pub fn get(&self, first: u16, second: u32) -> Option<T>
        ensures value { result ≡ map.get self.now (first, second) }
        ensures own_number { IfSome result (λ item. T.number item ≡ (first, second)) }
    {
        match sought(&self.items, (first, second)) {
            Ok(there) => Some(there.1),
            Err(_) => None,
        }
    }

    /// Some of them from a place on, in ascending order of their numbers: by the first of the pair, then by the
    /// second. They are as many as lie in one piece, and at least one where one is there.
    pub fn run_from(&self, place: usize) -> &[T]
        requires { place ≤ map.len self.now }
        ensures items { result.now ≡ take (length result.now) (drop place (map.values self.now)) }
        ensures some { place < map.len self.now → 1 ≤ length result.now }
    {
        self.items.from(place)
    }

    /// All in ascending order of their numbers, copied. An `Err` is out of memory.
    pub fn list(&self, alloc: Global) -> Result<Vec<T>, AllocError>
        ensures all { IfOk result (λ items. items.items ≡ map.values self.now) }
        ensures numbered { IsNumbered T.number MOST self.now }
    {
        self.items.list(alloc)
    }

    /// Takes out the one that has a number, if there is one.
    pub fn remove(&mut self, number: (u16, u32))
        ensures { self.new ≡ map.remove self.old number }
    {
        if let Ok(there) = sought(&self.items, number) {
            self.items.remove(there.0);
        }
    }

    /// Where a further one is to be put in, or `None` for a repeat, where memory suffices.
    pub fn place_for(&self, item: &T) -> Result<Option<usize>, AdditionFault>
        ensures { IsPlaceFor T.same T.number MOST result self.now item.now }
    {
        match sought(&self.items, item.number()) {
            Ok(there) if there.1.is_same(item) => Ok(None),
            Ok(_) => Err(AdditionFault::Conflict),
            Err(_) if self.items.len() >= MOST => Err(AdditionFault::Full),
            Err(at) => Ok(Some(at)),
        }
    }

    /// Puts in a further one at its place. An `Err` is out of memory, and then all is as before.
    pub fn put_at(&mut self, place: usize, item: T) -> Result<(), AllocError>
        requires { IsPlace T.same T.number MOST place self.old item }
        ensures ok { OnOk result (self.new ≡ map.insert self.old (T.number item) item) }
        ensures err { OnErr result (self.new ≡ self.old) }
        ensures numbered { IsNumbered T.number MOST self.new }
    {
        self.items.insert(place, item)?;
        Ok(())
    }

    /// Adds one: a repeat changes nothing, and so does a refusal. Other content at a number that is
    /// there is `Conflict`, then a further one for a full set is `Full`; `Memory` comes last, only where
    /// it would be added.
    pub fn add(&mut self, item: T) -> Result<Addition, AdditionFault>
        ensures answer { IsJudged T.same T.number MOST result self.old item }
        ensures after { self.new ≡ set_after T.number result self.old item }
        ensures numbered { IsNumbered T.number MOST self.new }
    {
        let Some(at) = self.place_for(&item)? else {
            return Ok(Addition::Repeat);
        };
        self.items.insert(at, item)?;
        Ok(Addition::Added)
    }
}
