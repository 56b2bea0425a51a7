ghost use Rattle.std.specs.Prelude.{◌≡◌, ◌≤◌, ◌↔◌, length, IsTrue, IfOk, IfSome};
ghost use Rattle.std.specs.FinMap as map;
ghost use Rattle.std.specs.List.Sorted.{IsBinarySearchResult, IsSearchInRange};
ghost use Rattle.pay_numbered.specs.Sound.{IsPlaceFor};
ghost use Rattle.pay_rules.specs.Numbers.{IsNumbered, number_cmp, judged, IsJudged, set_after};

use pay_rules::{Addition, AdditionFault, Numbered};
use smallvec::SmallVec;
use std::alloc::{AllocError, Global};
use std::default::MadeWith;
use std::marker::Model;

/// A set of at most `MOST` that have numbers of their own. In a contract it is the finite map from each
/// number to what has it. Up to `INLINE` lie in the set itself, and more in a list in memory of its own.
#[derive(Drop)]
pub struct NumberedSet<T: Numbered, const MOST: usize, const INLINE: usize> {
    // In ascending order of their numbers.
    items: SmallVec<T, INLINE>,
}

impl<T: Numbered, const MOST: usize, const INLINE: usize> Model for NumberedSet<T, MOST, INLINE> {
    ghost use Rattle.std.specs.FinMap as map;
    ghost use Rattle.std.specs.Coded.{coded×, coded_ℕ};
    ghost use Rattle.pay_rules.specs.Numbers.{ByNumber};
    ghost use Rattle.pay_numbered.specs.Sound.{set_of, IsSound};

    ghost Value = { ByNumber T };

    ghost coded = { map.code (coded× coded_ℕ coded_ℕ) T.code };

    ghost view = { λ set. set_of T.number set.items.items };

    ghost invariant = { λ set. IsSound T.number MOST set.items.items };
}

/// Where a number stands among what has ascending numbers, or else where it would stand.
fn position<T: Numbered>(items: &[T], number: (u16, u32)) -> Result<usize, usize>
    ensures in_range { IsSearchInRange result (length items.now) }
    ensures position { IsBinarySearchResult (λ item. number_cmp (T.number item) number) items.now result }
{
    items.binary_search_by_key(&number, |item| item.number())
}

impl<T: Numbered + MadeWith<Global>, const MOST: usize, const INLINE: usize> NumberedSet<
    T,
    MOST,
    INLINE,
> {
    /// None.
    pub fn new(alloc: Global) -> NumberedSet<T, MOST, INLINE>
        ensures { result ≡ map.empty }
    {
        NumberedSet {
            items: SmallVec::new(alloc),
        }
    }

    /// How many there are.
    pub fn len(&self) -> usize
        ensures value { result ≡ map.len self.now }
        ensures numbered { IsNumbered T.number MOST self.now }
    {
        self.as_slice().len()
    }

    /// Whether there is none.
    pub fn is_empty(&self) -> bool
        ensures { IsTrue result ↔ (self.now ≡ map.empty) }
    {
        self.len() == 0
    }

    /// The one whose number is this pair.
    pub fn get(&self, first: u16, second: u32) -> Option<T>
        ensures value { result ≡ map.get self.now (first, second) }
        ensures own_number { IfSome result (λ item. T.number item ≡ (first, second)) }
    {
        let items = self.items.as_slice();
        match position(items, (first, second)) {
            Ok(at) => Some(items[at]),
            Err(_) => None,
        }
    }

    /// All in ascending order of their numbers: by the first of the pair, then by the second.
    pub fn as_slice(&self) -> &[T]
        ensures all { result.now ≡ map.values self.now }
        ensures few { length result.now ≤ MOST }
        ensures numbered { IsNumbered T.number MOST self.now }
    {
        self.items.as_slice()
    }

    /// The same, copied. An `Err` is out of memory.
    pub fn list(&self, alloc: Global) -> Result<Vec<T>, AllocError>
        ensures all { IfOk result (λ items. items.items ≡ map.values self.now) }
        ensures numbered { IsNumbered T.number MOST self.now }
    {
        Vec::from_slice(alloc, self.as_slice())
    }

    /// Takes out the one that has a number, if there is one.
    pub fn remove(&mut self, number: (u16, u32))
        ensures { self.new ≡ map.remove self.old number }
    {
        if let Ok(at) = position(self.items.as_slice(), number) {
            self.items.remove(at);
        }
    }

    /// Where a further one is to be inserted, or `None` for a repeat.
    fn place_for(&self, item: &T) -> Result<Option<usize>, AdditionFault>
        ensures { IsPlaceFor T.same T.number MOST result self.now item.now }
    {
        let items = self.items.as_slice();
        match position(items, item.number()) {
            Ok(at) if items[at].is_same(item) => Ok(None),
            Ok(_) => Err(AdditionFault::Conflict),
            Err(_) if items.len() >= MOST => Err(AdditionFault::Full),
            Err(at) => Ok(Some(at)),
        }
    }

    /// The result of `add` where memory suffices. It takes none.
    pub fn judge(&self, item: &T) -> Result<Addition, AdditionFault>
        ensures { result ≡ judged T.same T.number MOST self.now item.now }
    {
        match self.place_for(item)? {
            Some(_) => Ok(Addition::Added),
            None => Ok(Addition::Repeat),
        }
    }

    /// Adds one: a repeat changes nothing, and so does a refusal. Other content at a number that is
    /// there is `Conflict`, then a further one for a full set is `Full`; `Memory` comes last, only where
    /// it would be added.
    pub fn add(&mut self, item: T) -> Result<Addition, AdditionFault>
        ensures answer { IsJudged T.same T.number MOST result self.old item }
        ensures after { self.new ≡ set_after T.number result self.old item }
        ensures numbered { IsNumbered T.number MOST self.new }
    {
        let Some(at) = self.place_for(&item)? else {
            return Ok(Addition::Repeat);
        };
        self.items.insert(at, item)?;
        Ok(Addition::Added)
    }
}
