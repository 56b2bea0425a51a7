ghost use Rattle.std.specs.Prelude.{◌≡◌, ◌+◌, ◌-◌, ◌^◌, ◌<◌, ◌≤◌, ◌↔◌, true, false, Some, [], ◌∷◌, length, take, drop, slice_get, IsTrue, IsOk, OnOk};
ghost use Rattle.std.specs.Vec.{vec_capacity};
ghost use Rattle.std.specs.List.{insert, remove};
ghost use Rattle.std.specs.List.Sorted.{IsPartitionedBy, IsPartitionPoint};
ghost use Rattle.pay_blocks.specs.declared.limits.TheConstants.{HALF, MOST};
ghost use Rattle.pay_blocks.specs.Laid.{begins, lowered, raised, IsPut};

use crate::comes_after::{ComesAfter, place_among};
use crate::limits::{HALF, MOST};
use std::alloc::{AllocError, Global};
use std::marker::Model;
use std::mem::replace;

/// Items that stand one after another in a list.
#[derive(Drop)]
pub struct Block<T: Copy> {
    start: usize,
    items: Vec<T>,
}

impl<T: Copy> Model for Block<T> {
    ghost use Rattle.std.specs.Vec.{vec_capacity};
    ghost use Rattle.pay_blocks.specs.Parts.{BlockParts, block_code};

    ghost Value = { BlockParts T };

    ghost coded = { block_code T.code };

    ghost view = { λ block. record { start = block.start; items = block.items.items; capacity = vec_capacity block.items } };
}

impl<T: Copy> Block<T> {
    /// A block of these items.
    pub fn new(start: usize, items: Vec<T>) -> Block<T>
        ensures start { result.start ≡ start }
        ensures items { result.items ≡ items.items }
        ensures capacity { result.capacity ≡ vec_capacity items }
    {
        Block { start, items }
    }

    /// The place of its first item in the list.
    pub fn start(&self) -> usize
        ensures { result ≡ self.now.start }
    {
        self.start
    }

    /// How many items it has.
    pub fn len(&self) -> usize
        ensures { result ≡ length self.now.items }
    {
        self.items.len()
    }

    /// The item that stands so many after its first.
    pub fn get(&self, offset: usize) -> Option<T>
        ensures { result ≡ slice_get self.now.items offset }
    {
        self.items.get(offset).copied()
    }

    /// Its items from one on.
    pub fn from(&self, offset: usize) -> &[T]
        requires { offset ≤ length self.now.items }
        ensures { result.now ≡ drop offset self.now.items }
    {
        &self.items[offset..]
    }

    /// Whether its first item comes before what is sought.
    pub fn begins_before<S: ComesAfter<T>>(&self, sought: &S) -> bool
        ensures { result ≡ begins (S.after sought.now) self.now.items }
    {
        match self.items.first() {
            Some(item) => sought.comes_after(item),
            None => false,
        }
    }

    /// How many of its items come before what is sought.
    pub fn place<S: ComesAfter<T>>(&self, sought: &S) -> usize
        requires { IsPartitionedBy (S.after sought.now) self.now.items }
        ensures within { result ≤ length self.now.items }
        ensures place { IsPartitionPoint (λ item. S.after sought.now item ≡ true) (λ item. S.after sought.now item ≡ false) self.now.items result }
    {
        place_among(&self.items, sought)
    }

    /// Begins one place later.
    pub fn raise(&mut self)
        requires { self.old.start < 2 ^ 64 - 1 }
        ensures { self.new ≡ raised self.old }
    {
        self.start += 1;
    }

    /// Begins one place earlier.
    pub fn lower(&mut self)
        requires { 1 ≤ self.old.start }
        ensures { self.new ≡ lowered self.old }
    {
        self.start -= 1;
    }

    /// Makes room for one more. An `Err` is out of memory.
    pub fn reserve(&mut self) -> Result<(), AllocError>
        ensures start { self.new.start ≡ self.old.start }
        ensures items { self.new.items ≡ self.old.items }
        ensures room { OnOk result (length self.new.items < self.new.capacity) }
    {
        self.items.reserve(1)
    }

    /// Takes out an item.
    pub fn remove(&mut self, offset: usize) -> T
        requires { offset < length self.old.items }
        ensures value { slice_get self.old.items offset ≡ Some result }
        ensures start { self.new.start ≡ self.old.start }
        ensures items { self.new.items ≡ remove self.old.items offset }
        ensures capacity { self.new.capacity ≡ self.old.capacity }
    {
        self.items.remove(offset)
    }

    /// Puts in one more, for which there is room.
    pub fn insert(&mut self, offset: usize, item: T)
        requires within { offset ≤ length self.old.items }
        requires room { length self.old.items < self.old.capacity }
        ensures start { self.new.start ≡ self.old.start }
        ensures items { self.new.items ≡ insert self.old.items offset item }
        ensures capacity { self.new.capacity ≡ self.old.capacity }
    {
        match self.items.insert(offset, item) {
            Ok(()) => {}
            Err(_) => unreachable!(),
        }
    }

    /// Keeps half of its items, if it is full, and gives the others.
    fn split(&mut self, mut spare: Vec<T>) -> Block<T>
        requires full { length self.old.items ≡ MOST }
        requires fits { self.old.start + MOST < 2 ^ 64 }
        requires spare { spare.items ≡ [] }
        requires room { MOST ≤ vec_capacity spare }
        ensures start { self.new.start ≡ self.old.start }
        ensures items { self.new.items ≡ take HALF self.old.items }
        ensures capacity { (MOST ≤ self.new.capacity) × (self.new.capacity ≡ self.old.capacity) }
        ensures next_start { result.start ≡ self.old.start + HALF }
        ensures next_items { result.items ≡ drop HALF self.old.items }
        ensures next_capacity { MOST ≤ result.capacity }
    {
        match spare.extend_from_slice(&self.items[HALF..]) {
            Ok(()) => {}
            Err(_) => unreachable!(),
        }
        self.items.truncate(HALF);
        Block {
            start: self.start + HALF,
            items: spare,
        }
    }

    /// Puts one more into a full block, half of which is split off.
    fn put_halved(&mut self, offset: usize, item: T, spare: Vec<T>) -> Block<T>
        requires within { offset ≤ length self.old.items }
        requires full { length self.old.items ≡ MOST }
        requires fits { self.old.start + MOST < 2 ^ 64 }
        requires spare { spare.items ≡ [] }
        requires room { MOST ≤ vec_capacity spare }
        ensures { IsPut self.old offset item self.new (Some result) }
    {
        let mut next = self.split(spare);
        if offset <= HALF {
            self.insert(offset, item);
            next.raise();
            return next;
        }
        next.insert(offset - HALF, item);
        next
    }

    /// Puts one more after a full block, into one of its own.
    fn put_after(&mut self, item: T, mut spare: Vec<T>) -> Block<T>
        requires full { length self.old.items ≡ MOST }
        requires fits { self.old.start + MOST < 2 ^ 64 }
        requires spare { spare.items ≡ [] }
        requires room { MOST ≤ vec_capacity spare }
        ensures { IsPut self.old MOST item self.new (Some result) }
    {
        match spare.push(item) {
            Ok(()) => {}
            Err(_) => unreachable!(),
        }
        Block {
            start: self.start + MOST,
            items: spare,
        }
    }

    /// Puts in one more. A full block is split, and what lies after it then is answered; the last one stays
    /// full where one more comes after it.
    pub fn put(
        &mut self,
        offset: usize,
        item: T,
        is_last: bool,
        spare: &mut Vec<T>,
    ) -> Option<Block<T>>
        requires within { offset ≤ length self.old.items }
        requires few { length self.old.items ≤ MOST }
        requires fits { self.old.start + length self.old.items < 2 ^ 64 }
        requires room { length self.old.items < MOST → length self.old.items < self.old.capacity }
        requires spare { spare.old.items ≡ [] }
        requires spare_room { MOST ≤ length self.old.items → MOST ≤ vec_capacity spare.old }
        ensures put { IsPut self.old offset item self.new result }
        ensures spare { spare.new.items ≡ [] }
    {
        if self.items.len() < MOST {
            self.insert(offset, item);
            return None;
        }
        let alloc = *spare.allocator();
        let spare = replace(spare, Vec::new(alloc));
        if is_last && offset == MOST {
            return Some(self.put_after(item, spare));
        }
        Some(self.put_halved(offset, item, spare))
    }
}
