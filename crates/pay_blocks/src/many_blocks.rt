ghost use Rattle.std.specs.Prelude.{◌≡◌, ◌≤◌, ◌<◌, true, false, Some, length, take, drop, slice_get, IsOk, IfOk, OnOk};
ghost use Rattle.std.specs.List.{insert, remove};
ghost use Rattle.std.specs.List.Sorted.{IsPartitionedBy, IsPartitionPoint};
ghost use Rattle.pay_blocks.specs.declared.limits.TheConstants.{MOST};

use crate::block::Block;
use crate::comes_after::ComesAfter;
use crate::later::{begun, drop_empty, lower_from, make_way, passed, put_in, take_out};
use crate::limits::MOST;
use std::alloc::{AllocError, Global};
use std::marker::Model;

/// A list of as many blocks as it needs. In a contract it is its items, and for how many more there is room: none, or one.
#[derive(Drop)]
pub struct ManyBlocks<T: Copy> {
    // A list that never was longer than a block has this one alone. It may become empty before the others.
    first: Block<T>,
    later: Vec<Block<T>>,
    // The memory of a block to come.
    spare: Vec<T>,
    count: usize,
    room: usize,
}

impl<T: Copy> Model for ManyBlocks<T> {
    ghost use Rattle.std.specs.Prelude.{◌++◌};
    ghost use Rattle.std.specs.Vec.{vec_capacity};
    ghost use Rattle.pay_blocks.specs.Parts.{BlocksParts, blocks_code};
    ghost use Rattle.pay_blocks.specs.Laid.{joined, AreBlocks};

    ghost Value = { BlocksParts T };

    ghost coded = { blocks_code T.code };

    ghost view = { λ b. record { items = b.first.items ++ joined b.later.items; room = b.room } };

    ghost invariant = { λ b. AreBlocks b.first b.later.items b.count b.room b.spare.items (vec_capacity b.spare) (vec_capacity b.later) };
}

impl<T: Copy> ManyBlocks<T> {
    /// These items, in one block.
    pub fn of(items: Vec<T>) -> ManyBlocks<T>
        requires { length items.items ≤ MOST }
        ensures { result.items ≡ items.items }
    {
        let alloc = *items.allocator();
        let count = items.len();
        ManyBlocks {
            first: Block::new(0, items),
            later: Vec::new(alloc),
            spare: Vec::new(alloc),
            count,
            room: 0,
        }
    }

    /// How many there are.
    pub fn len(&self) -> usize
        ensures { result ≡ length self.now.items }
    {
        self.count
    }

    /// The item at a place.
    pub fn get(&self, place: usize) -> Option<T>
        ensures { result ≡ slice_get self.now.items place }
    {
        let begun = begun(&self.later, place);
        if begun == 0 {
            return self.first.get(place);
        }
        let block = &self.later[begun - 1];
        block.get(place - block.start())
    }

    /// Items from a place on: as many as lie in one block, and at least one where one is there.
    pub fn from(&self, place: usize) -> &[T]
        requires { place ≤ length self.now.items }
        ensures items { result.now ≡ take (length result.now) (drop place self.now.items) }
        ensures some { place < length self.now.items → 1 ≤ length result.now }
    {
        let begun = begun(&self.later, place);
        if begun == 0 {
            return self.first.from(place);
        }
        let block = &self.later[begun - 1];
        block.from(place - block.start())
    }

    /// All items, copied. An `Err` is out of memory.
    pub fn list(&self, alloc: Global) -> Result<Vec<T>, AllocError>
        ensures { IfOk result (λ items. items.items ≡ self.now.items) }
    {
        let mut items = Vec::with_capacity(alloc, self.count)?;
        items.extend_from_slice(self.first.from(0))?;
        for block in &self.later {
            items.extend_from_slice(block.from(0))?;
        }
        Ok(items)
    }

    /// How many items come before what is sought: where it stands, or would stand.
    pub fn place<S: ComesAfter<T>>(&self, sought: &S) -> usize
        requires { IsPartitionedBy (S.after sought.now) self.now.items }
        ensures within { result ≤ length self.now.items }
        ensures place { IsPartitionPoint (λ item. S.after sought.now item ≡ true) (λ item. S.after sought.now item ≡ false) self.now.items result }
    {
        let passed = passed(&self.later, sought);
        if passed == 0 {
            return self.first.place(sought);
        }
        let block = &self.later[passed - 1];
        block.start() + block.place(sought)
    }

    /// Makes room for one more. An `Err` is out of memory.
    pub fn reserve(&mut self) -> Result<(), AllocError>
        ensures items { self.new.items ≡ self.old.items }
        ensures room { OnOk result (1 ≤ self.new.room) }
        ensures there { 1 ≤ self.old.room → IsOk result }
    {
        if self.room > 0 {
            return Ok(());
        }
        if self.count == usize::MAX {
            return Err(AllocError);
        }
        let is_full = self.first.len() >= MOST;
        if !is_full {
            self.first.reserve()?;
        }
        if is_full || !self.later.is_empty() {
            self.spare.reserve_exact(MOST)?;
            self.later.reserve(1)?;
        }
        self.room = 1;
        Ok(())
    }

    /// Puts in one more, at a place. It takes no memory.
    pub fn insert(&mut self, place: usize, item: T)
        requires room { 1 ≤ self.old.room }
        requires within { place ≤ length self.old.items }
        ensures { self.new.items ≡ insert self.old.items place item }
    {
        let begun = begun(&self.later, place);
        self.room = 0;
        self.count += 1;
        if begun == 0 {
            let is_last = self.later.is_empty();
            let next = self.first.put(place, item, is_last, &mut self.spare);
            make_way(&mut self.later, 0, next);
            return;
        }
        let next = put_in(&mut self.later, begun - 1, place, item, &mut self.spare);
        make_way(&mut self.later, begun, next);
    }

    /// Takes out the item at a place.
    pub fn remove(&mut self, place: usize) -> T
        requires { place < length self.old.items }
        ensures value { slice_get self.old.items place ≡ Some result }
        ensures after { self.new.items ≡ remove self.old.items place }
    {
        let begun = begun(&self.later, place);
        self.room = 0;
        self.count -= 1;
        if begun == 0 {
            let item = self.first.remove(place);
            lower_from(&mut self.later, 0);
            return item;
        }
        let item = take_out(&mut self.later, begun - 1, place);
        lower_from(&mut self.later, begun);
        drop_empty(&mut self.later, begun - 1);
        item
    }
}
