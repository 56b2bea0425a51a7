ghost use Rattle.std.specs.Prelude.{◌≡◌, ◌^◌, ◌<◌, ◌≤◌, true, false, [], ◌++◌, length, take, drop, slice_get, IfOk, OnOk, OnErr};
ghost use Rattle.std.specs.List.{insert, remove};
ghost use Rattle.std.specs.List.Sorted.{IsPartitionedBy, IsPartitionPoint};

use arrayvec::ArrayVec;
use pay_blocks::{Blocks, ComesAfter, place_among};
use std::alloc::{AllocError, Global};
use std::default::MadeWith;
use std::marker::Model;

/// A list, of which up to `FRONT` first items lie in the value itself, and the others in blocks. In a contract it
/// is its items.
#[derive(Drop)]
pub struct FrontedList<T: Copy, const FRONT: usize> {
    front: ArrayVec<T, FRONT, Global>,
    rest: Blocks<T>,
}

impl<T: Copy, const FRONT: usize> Model for FrontedList<T, FRONT> {
    ghost use Rattle.std.specs.Prelude.{List, ◌++◌};
    ghost use Rattle.std.specs.Coded.{coded_list};

    ghost Value = { List T };

    ghost coded = { coded_list T.code };

    ghost view = { λ list. list.front.items ++ list.rest.items };
}

/// Puts an item into a full front, whose last one then is the first after it, where there is room for that.
fn put_in_full<T: Copy + MadeWith<Global>, const FRONT: usize>(
    front: &mut ArrayVec<T, FRONT, Global>,
    rest: &mut Blocks<T>,
    place: usize,
    item: T,
)
    requires within { place < length front.old.items }
    requires few { length front.old.items ≤ FRONT }
    requires room { 1 ≤ rest.old.room }
    ensures { front.new.items ++ rest.new.items ≡ insert (front.old.items ++ rest.old.items) place item }
{
    let Some(last) = front.pop() else {
        unreachable!()
    };
    rest.insert(0, last);
    front.insert(place, item);
}

impl<T: Copy + MadeWith<Global>, const FRONT: usize> FrontedList<T, FRONT> {
    /// No items. It takes no memory.
    pub fn new(alloc: Global) -> FrontedList<T, FRONT>
        ensures { result ≡ [] }
    {
        FrontedList {
            front: ArrayVec::new_in(alloc),
            rest: Blocks::new(alloc),
        }
    }

    /// How many there are.
    pub fn len(&self) -> usize
        requires { length self.now < 2 ^ 64 }
        ensures { result ≡ length self.now }
    {
        self.front.len() + self.rest.len()
    }

    /// The item at a place.
    pub fn get(&self, place: usize) -> Option<T>
        ensures { result ≡ slice_get self.now place }
    {
        let front = self.front.as_slice();
        if place < front.len() {
            return Some(front[place]);
        }
        self.rest.get(place - front.len())
    }

    /// Items from a place on: as many as lie in one piece, and at least one where one is there.
    pub fn from(&self, place: usize) -> &[T]
        requires { place ≤ length self.now }
        ensures items { result.now ≡ take (length result.now) (drop place self.now) }
        ensures some { place < length self.now → 1 ≤ length result.now }
    {
        let front = self.front.as_slice();
        if place < front.len() {
            return &front[place..];
        }
        self.rest.from(place - front.len())
    }

    /// All items, copied. An `Err` is out of memory.
    pub fn list(&self, alloc: Global) -> Result<Vec<T>, AllocError>
        requires { length self.now < 2 ^ 64 }
        ensures { IfOk result (λ items. items.items ≡ self.now) }
    {
        let count = self.len();
        let mut items = Vec::with_capacity(alloc, count)?;
        while items.len() < count {
            items.extend_from_slice(self.from(items.len()))?;
        }
        Ok(items)
    }

    /// How many items come before what is sought: where it stands, or would stand.
    pub fn place<S: ComesAfter<T>>(&self, sought: &S) -> usize
        requires parted { IsPartitionedBy (S.after sought.now) self.now }
        requires few { length self.now < 2 ^ 64 }
        ensures within { result ≤ length self.now }
        ensures place { IsPartitionPoint (λ item. S.after sought.now item ≡ true) (λ item. S.after sought.now item ≡ false) self.now result }
    {
        let front = self.front.as_slice();
        let place = place_among(front, sought);
        if place < front.len() {
            return place;
        }
        place + self.rest.place(sought)
    }

    /// Puts in one more, at a place. An `Err` is out of memory, and then all is as before.
    pub fn insert(&mut self, place: usize, item: T) -> Result<(), AllocError>
        requires { place ≤ length self.old }
        ensures ok { OnOk result (self.new ≡ insert self.old place item) }
        ensures err { OnErr result (self.new ≡ self.old) }
    {
        let first = self.front.len();
        if place <= first && first < FRONT {
            self.front.insert(place, item);
            return Ok(());
        }
        self.rest.reserve()?;
        if place < first {
            put_in_full(&mut self.front, &mut self.rest, place, item);
            return Ok(());
        }
        self.rest.insert(place - first, item);
        Ok(())
    }

    /// Takes out the item at a place.
    pub fn remove(&mut self, place: usize)
        requires { place < length self.old }
        ensures { self.new ≡ remove self.old place }
    {
        let first = self.front.len();
        if place < first {
            self.front.remove(place);
            return;
        }
        self.rest.remove(place - first);
    }
}
