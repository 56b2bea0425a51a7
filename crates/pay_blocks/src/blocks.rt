ghost use Rattle.std.specs.Prelude.{◌≡◌, ◌≤◌, ◌<◌, ◌↔◌, true, false, Some, [], length, take, drop, slice_get, IsTrue, IsOk, IfOk, OnOk, OnErr};
ghost use Rattle.std.specs.List.{insert, remove};
ghost use Rattle.std.specs.List.Sorted.{IsPartitionedBy, IsPartitionPoint};
ghost use Rattle.pay_blocks.specs.declared.limits.TheConstants.{MOST};

use crate::comes_after::{ComesAfter, place_among};
use crate::limits::MOST;
use crate::many_blocks::ManyBlocks;
use std::alloc::{AllocError, Global};
use std::marker::Model;
use std::mem::replace;

/// A list in blocks. As long as it has no more items than a block, these lie in one piece, and the list takes four words. In a
/// contract it is its items, and for how many more there is room.
#[derive(Drop)]
pub struct Blocks<T: Copy> {
    // All items, unless there are blocks.
    few: Vec<T>,
    // All items, once they were more than a block has.
    many: Option<Box<ManyBlocks<T>>>,
}

impl<T: Copy> Model for Blocks<T> {
    ghost use Rattle.std.specs.Prelude.{◌≤◌, length};
    ghost use Rattle.std.specs.Option.{option_map};
    ghost use Rattle.std.specs.Vec.{vec_capacity};
    ghost use Rattle.pay_blocks.specs.declared.limits.TheConstants.{MOST};
    ghost use Rattle.pay_blocks.specs.Parts.{BlocksParts, blocks_code, parts_of};

    ghost Value = { BlocksParts T };

    ghost coded = { blocks_code T.code };

    ghost view = { λ b. parts_of b.few.items (vec_capacity b.few) (option_map (λ many. many.value) b.many) };

    ghost invariant = { λ b. length b.few.items ≤ MOST };
}

/// Takes items out and lays them in a block. An `Err` is out of memory, and then they are left.
fn laid<T: Copy>(few: &mut Vec<T>) -> Result<Box<ManyBlocks<T>>, AllocError>
    requires { length few.old.items ≤ MOST }
    ensures laid { IfOk result (λ many. many.value.items ≡ few.old.items) }
    ensures none { OnOk result (few.new.items ≡ []) }
    ensures left { OnErr result (few.new ≡ few.old) }
{
    let alloc = *few.allocator();
    let mut many = Box::new(alloc, ManyBlocks::of(Vec::new(alloc)))?;
    let items = replace(few, Vec::new(alloc));
    let _ = Box::replace(&mut many, ManyBlocks::of(items));
    Ok(many)
}

impl<T: Copy> Blocks<T> {
    /// No items. It takes no memory.
    pub fn new(alloc: Global) -> Blocks<T>
        ensures { result.items ≡ [] }
    {
        Blocks {
            few: Vec::new(alloc),
            many: None,
        }
    }

    /// How many there are.
    pub fn len(&self) -> usize
        ensures { result ≡ length self.now.items }
    {
        match &self.many {
            None => self.few.len(),
            Some(many) => many.len(),
        }
    }

    /// Whether there is none.
    pub fn is_empty(&self) -> bool
        ensures { IsTrue result ↔ (self.now.items ≡ []) }
    {
        self.len() == 0
    }

    /// The item at a place.
    pub fn get(&self, place: usize) -> Option<T>
        ensures { result ≡ slice_get self.now.items place }
    {
        match &self.many {
            None => self.few.get(place).copied(),
            Some(many) => many.get(place),
        }
    }

    /// Items from a place on: as many as lie in one block, and at least one where one is there.
    pub fn from(&self, place: usize) -> &[T]
        requires { place ≤ length self.now.items }
        ensures items { result.now ≡ take (length result.now) (drop place self.now.items) }
        ensures some { place < length self.now.items → 1 ≤ length result.now }
    {
        match &self.many {
            None => &self.few[place..],
            Some(many) => many.from(place),
        }
    }

    /// All items, copied. An `Err` is out of memory.
    pub fn list(&self, alloc: Global) -> Result<Vec<T>, AllocError>
        ensures { IfOk result (λ items. items.items ≡ self.now.items) }
    {
        match &self.many {
            None => {
                let mut items = Vec::with_capacity(alloc, self.few.len())?;
                items.extend_from_slice(&self.few)?;
                Ok(items)
            }
            Some(many) => many.list(alloc),
        }
    }

    /// How many items come before what is sought: where it stands, or would stand.
    pub fn place<S: ComesAfter<T>>(&self, sought: &S) -> usize
        requires { IsPartitionedBy (S.after sought.now) self.now.items }
        ensures within { result ≤ length self.now.items }
        ensures place { IsPartitionPoint (λ item. S.after sought.now item ≡ true) (λ item. S.after sought.now item ≡ false) self.now.items result }
    {
        match &self.many {
            None => place_among(&self.few, sought),
            Some(many) => many.place(sought),
        }
    }

    /// Makes room for one more. An `Err` is out of memory.
    pub fn reserve(&mut self) -> Result<(), AllocError>
        ensures items { self.new.items ≡ self.old.items }
        ensures room { OnOk result (1 ≤ self.new.room) }
        ensures there { 1 ≤ self.old.room → IsOk result }
    {
        if let Some(many) = &mut self.many {
            return many.reserve();
        }
        if self.few.len() < MOST {
            return self.few.reserve(1);
        }
        let mut many = laid(&mut self.few)?;
        let reserved = many.reserve();
        self.many = Some(many);
        reserved
    }

    /// Puts in one more, at a place. It takes no memory.
    pub fn insert(&mut self, place: usize, item: T)
        requires room { 1 ≤ self.old.room }
        requires within { place ≤ length self.old.items }
        ensures { self.new.items ≡ insert self.old.items place item }
    {
        if let Some(many) = &mut self.many {
            many.insert(place, item);
            return;
        }
        match self.few.insert(place, item) {
            Ok(()) => {}
            Err(_) => unreachable!(),
        }
    }

    /// Takes out the item at a place.
    pub fn remove(&mut self, place: usize) -> T
        requires { place < length self.old.items }
        ensures value { slice_get self.old.items place ≡ Some result }
        ensures after { self.new.items ≡ remove self.old.items place }
    {
        if let Some(many) = &mut self.many {
            return many.remove(place);
        }
        self.few.remove(place)
    }
}
