ghost use Rattle.std.specs.Prelude.{◌≡◌, ◌<◌, [], ◌∷◌, ◌++◌, length, IfOk, slice_get};
ghost use Rattle.pay_shard.specs.declared.limits.TheConstants.{BLOCK_ITEMS};

use crate::item::Item;
use crate::limits::BLOCK_ITEMS;
use std::alloc::{AllocError, Global};
use std::marker::Model;

/// A block of a journal. In a contract it is its items.
#[derive(Drop)]
pub(crate) struct JournalBlock {
    items: Vec<Item>,
}

impl Model for JournalBlock {
    ghost use Rattle.std.specs.Prelude.{◌≤◌, List};
    ghost use Rattle.std.specs.Vec.{vec_capacity};
    ghost use Rattle.pay_shard.specs.declared.item.Item.{Item};
    ghost use Rattle.pay_shard.specs.declared.limits.TheConstants.{BLOCK_ITEMS};

    ghost Value = { List Item };

    ghost view = { λ b. b.items.items };

    ghost invariant = { λ b. BLOCK_ITEMS ≤ vec_capacity b.items };
}

impl JournalBlock {
    /// With no items, and memory for all that it may have.
    pub(crate) fn new(alloc: Global) -> Result<JournalBlock, AllocError>
        ensures { IfOk result (λ block. block ≡ []) }
    {
        Ok(JournalBlock {
            items: Vec::with_capacity(alloc, BLOCK_ITEMS)?,
        })
    }

    /// One item more, which takes no memory.
    pub(crate) fn add(&mut self, item: Item)
        requires { length self.old < BLOCK_ITEMS }
        ensures { self.new ≡ self.old ++ item ∷ [] }
    {
        self.items.push_reserved(item);
    }

    /// The item at a place.
    pub(crate) fn get(&self, place: usize) -> Option<Item>
        ensures { result ≡ slice_get self.now place }
    {
        self.items.get(place).copied()
    }
}
