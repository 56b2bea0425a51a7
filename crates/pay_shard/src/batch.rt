ghost use Rattle.std.specs.Prelude.{◌≡◌, [], ◌∷◌, ◌++◌, OnOk};

use pay_rules::{Quote, Sets};
use std::alloc::{AllocError, Global};
use std::marker::Model;

/// What accounts owe, in ascending order of account, and all that they have accepted. In a contract it is the two lists.
#[derive(Drop)]
pub struct Batch {
    quotes: Vec<Quote>,
    sets: Vec<Sets>,
}

impl Model for Batch {
    ghost use Rattle.pay_shard.specs.BatchParts.{BatchParts, batch_code};

    ghost Value = { BatchParts };

    ghost coded = { batch_code };

    ghost view = { λ b. record { quotes = b.quotes.items; sets = b.sets.items } };
}

impl Batch {
    /// Of no account.
    pub(crate) fn new(alloc: Global) -> Batch
        ensures { result ≡ record { quotes = []; sets = [] } }
    {
        Batch {
            quotes: Vec::new(alloc),
            sets: Vec::new(alloc),
        }
    }

    /// One account more. After an `Err` the batch is of no further use.
    pub(crate) fn push(&mut self, quote: Quote, sets: Sets) -> Result<(), AllocError>
        ensures { OnOk result (self.new ≡ record { quotes = self.old.quotes ++ quote ∷ []; sets = self.old.sets ++ sets ∷ [] }) }
    {
        self.quotes.push(quote)?;
        self.sets.push(sets)?;
        Ok(())
    }

    /// What each account owes.
    pub fn quotes(&self) -> &[Quote]
        ensures { result.now ≡ self.now.quotes }
    {
        &self.quotes
    }

    /// All that each account has accepted, in the same order.
    pub fn sets(&self) -> &[Sets]
        ensures { result.now ≡ self.now.sets }
    {
        &self.sets
    }

    /// The two lists.
    pub fn into_parts(self) -> (Vec<Quote>, Vec<Sets>)
        ensures quotes { result.0.items ≡ self.quotes }
        ensures sets { result.1.items ≡ self.sets }
    {
        (self.quotes, self.sets)
    }
}
