ghost use Rattle.std.specs.Prelude.{◌≡◌, ◌+◌, ◌-◌, ◌<◌, ◌≤◌, [], ◌∷◌, ◌++◌, length, IsOk, OnOk, OnErr, None, max, slice_get};
ghost use Rattle.std.specs.Option.{option_map};
ghost use Rattle.pay_shard.specs.declared.limits.TheConstants.{BLOCK_ITEMS};

use crate::block::JournalBlock;
use crate::item::Item;
use crate::limits::BLOCK_ITEMS;
use crate::past::Past;
use std::alloc::{AllocError, Global};
use std::default::MadeWith;
use std::marker::Model;
use std::snapshot::Snapshot;

/// The items of a shard, in order. It grows by blocks, and moves no item. What it forgets takes no memory, and can be got no
/// more. In a contract it is all items, how many of the first are forgotten, and for how many more there is room.
#[derive(Drop)]
pub struct Journal {
    alloc: Global,
    past: Past,
    // How many items are forgotten.
    forgotten: usize,
    // Full ones, the one that is filled, and empty ones.
    blocks: Vec<JournalBlock>,
    // How many items they have.
    len: usize,
}

impl Model for Journal {
    ghost use Rattle.std.specs.Prelude.{◌≡◌, ◌-◌, ◌*◌, ◌++◌, length};
    ghost use Rattle.pay_shard.specs.declared.limits.TheConstants.{BLOCK_ITEMS};
    ghost use Rattle.pay_shard.specs.JournalParts.{JournalParts, JournalMemory, journal_code, all_in, all_past, AreBlocks};

    ghost Value = { JournalParts };

    ghost coded = { journal_code };

    ghost view = { λ j. record {
      items = all_past j.past ++ all_in j.blocks.items;
      memory = record { forgotten = j.forgotten; room = BLOCK_ITEMS * length j.blocks.items - j.len };
    } };

    ghost invariant = { λ j. (length (all_past j.past) ≡ j.forgotten) × AreBlocks j.forgotten j.len j.blocks.items };
}

impl MadeWith<Global> for Journal {
    fn made_with(alloc: Global) -> Journal {
        Journal::new(alloc)
    }
}

/// The block of a number.
fn block_at(blocks: &[JournalBlock], number: usize) -> Option<&JournalBlock>
    ensures { option_map (λ block. block.now) result ≡ slice_get blocks.now number }
{
    blocks.get(number)
}

impl Journal {
    /// No items, which take no memory.
    pub fn new(alloc: Global) -> Journal
        ensures { result ≡ record { items = []; memory = record { forgotten = 0; room = 0 } } }
    {
        Journal {
            alloc,
            past: Past::None,
            forgotten: 0,
            blocks: Vec::new(alloc),
            len: 0,
        }
    }

    /// How many items there are, with those that are forgotten.
    pub fn len(&self) -> usize
        ensures { result ≡ length self.now.items }
    {
        self.forgotten + self.len
    }

    /// How many of the first ones are forgotten.
    pub fn forgotten(&self) -> usize
        ensures { result ≡ self.now.memory.forgotten }
    {
        self.forgotten
    }

    /// How many more items it takes without memory.
    pub fn room(&self) -> usize
        ensures { result ≡ self.now.memory.room }
    {
        self.blocks.len() * BLOCK_ITEMS - self.len
    }

    /// Makes room for a block more. An `Err` is out of memory.
    fn add_block(&mut self) -> Result<(), AllocError>
        ensures items { self.new.items ≡ self.old.items }
        ensures forgotten { self.new.memory.forgotten ≡ self.old.memory.forgotten }
        ensures ok { OnOk result (self.new.memory.room ≡ self.old.memory.room + BLOCK_ITEMS) }
        ensures refused { OnErr result (self.new.memory.room ≡ self.old.memory.room) }
    {
        if self.blocks.len() >= (usize::MAX - self.forgotten) / BLOCK_ITEMS {
            return Err(AllocError);
        }
        let block = JournalBlock::new(self.alloc)?;
        self.blocks.push(block)?;
        Ok(())
    }

    /// Makes room for so many more items. An `Err` is out of memory.
    pub fn reserve(&mut self, items: usize) -> Result<(), AllocError>
        ensures items { self.new.items ≡ self.old.items }
        ensures forgotten { self.new.memory.forgotten ≡ self.old.memory.forgotten }
        ensures ok { OnOk result (items ≤ self.new.memory.room) }
        ensures no_less { self.old.memory.room ≤ self.new.memory.room }
        ensures most { self.new.memory.room ≤ max self.old.memory.room (items + (BLOCK_ITEMS - 1)) }
        ensures there { items ≤ self.old.memory.room → IsOk result }
        ensures same { items ≤ self.old.memory.room → self.new ≡ self.old }
    {
        while self.room() < items {
            self.add_block()?;
        }
        Ok(())
    }

    /// Adds an item, which takes no memory.
    pub fn push(&mut self, item: Item)
        requires { 1 ≤ self.old.memory.room }
        ensures items { self.new.items ≡ self.old.items ++ item ∷ [] }
        ensures forgotten { self.new.memory.forgotten ≡ self.old.memory.forgotten }
        ensures room { self.new.memory.room ≡ self.old.memory.room - 1 }
    {
        let place = self.len / BLOCK_ITEMS;
        self.blocks[place].add(item);
        self.len += 1;
    }

    /// Forgets all items: what they take is given back.
    pub fn forget(&mut self)
        ensures { self.new ≡ record { items = self.old.items; memory = record { forgotten = length self.old.items; room = 0 } } }
    {
        let earlier = Snapshot::of(&self.past);
        let blocks = Snapshot::of(&self.blocks);
        self.past = Past::Then { earlier, blocks };
        self.forgotten += self.len;
        self.blocks = Vec::new(self.alloc);
        self.len = 0;
    }

    /// The item at a place, if it is not forgotten.
    pub fn get(&self, place: usize) -> Option<Item>
        ensures kept { self.now.memory.forgotten ≤ place → result ≡ slice_get self.now.items place }
        ensures none { place < self.now.memory.forgotten → result ≡ None }
    {
        if place < self.forgotten {
            return None;
        }
        let kept = place - self.forgotten;
        let block = block_at(&self.blocks, kept / BLOCK_ITEMS)?;
        block.get(kept % BLOCK_ITEMS)
    }
}
