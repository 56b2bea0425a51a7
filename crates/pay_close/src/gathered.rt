//! What the shards of a desk give for the close of a day.
ghost use Rattle.std.specs.Prelude.{◌≡◌, ◌≤◌, [], OnOk};
ghost use Rattle.pay_day.specs.declared.limits.TheConstants.{FIRST_DAY, LAST_DAY};
ghost use Rattle.pay_shard.specs.Words.{NothingIsLost};
ghost use Rattle.pay_till.specs.Words.{AreQuotes};
ghost use Rattle.pay_close.specs.Batches.{in_order_by, in_order, both, gathered};
ghost use Rattle.pay_close.specs.Gathers.{IsAskedAt, IsToldAt};

use crate::asking::ask_all;
use crate::fault::NotClosed;
use pay_rules::{Quote, Sets};
use pay_shard::{Batch, Desk};
use std::alloc::{AllocError, Global};
use std::marker::Model;

/// What is gathered for the close of a day: what accounts owe, and all that they have accepted. In a contract it is the two
/// lists, as of a shard's batch.
#[derive(Drop)]
pub struct Gathered {
    quotes: Vec<Quote>,
    sets: Vec<Sets>,
}

impl Model for Gathered {
    ghost use Rattle.pay_shard.specs.Words.{BatchParts, batch_code};

    ghost Value = { BatchParts };

    ghost coded = { batch_code };

    ghost view = { λ g. record { quotes = g.quotes.items; sets = g.sets.items } };
}

/// Puts quotes in ascending order of account.
fn sort_quotes(quotes: &mut Vec<Quote>) -> Result<(), AllocError>
    ensures { OnOk result (quotes.new.items ≡ in_order_by (λ q. q.account) quotes.old.items) }
{
    quotes.sort_by_key(|quote| quote.account())
}

/// Puts sets in ascending order of account.
fn sort_sets(sets: &mut Vec<Sets>) -> Result<(), AllocError>
    ensures { OnOk result (sets.new.items ≡ in_order_by (λ s. s.account) sets.old.items) }
{
    sets.sort_by_key(|set| set.account())
}

impl Gathered {
    /// Of no account.
    pub(crate) fn new(alloc: Global) -> Gathered
        ensures { result ≡ record { quotes = []; sets = [] } }
    {
        Gathered {
            quotes: Vec::new(alloc),
            sets: Vec::new(alloc),
        }
    }

    /// A shard's batch after what there is. After an `Err` what there is is of no further use.
    pub(crate) fn add(&mut self, batch: Batch) -> Result<(), AllocError>
        ensures { OnOk result (self.new ≡ both self.old batch) }
    {
        let (mut quotes, mut sets) = batch.into_parts();
        self.quotes.append(&mut quotes)?;
        self.sets.append(&mut sets)?;
        Ok(())
    }

    /// In ascending order of account. After an `Err` what there is is of no further use.
    fn sort(&mut self) -> Result<(), AllocError>
        ensures { OnOk result (self.new ≡ in_order self.old) }
    {
        sort_quotes(&mut self.quotes)?;
        sort_sets(&mut self.sets)?;
        Ok(())
    }

    /// What each account owes.
    pub fn quotes(&self) -> &[Quote]
        ensures { result.now ≡ self.now.quotes }
    {
        &self.quotes
    }

    /// All that each account has accepted.
    pub fn sets(&self) -> &[Sets]
        ensures { result.now ≡ self.now.sets }
    {
        &self.sets
    }
}

/// Asks each shard of a desk for its quotes of a service day, counted from 1970-01-01: what they bring, together in ascending
/// order of account. All shards are asked before the first answer is got; once the desk refuses a command no more is asked, and the
/// answers to all that were put are got. `Desk` is the first fault of the desk, and `Ledger` is out of memory for what was brought.
pub fn gather<D: Desk>(alloc: Global, desk: &mut D, day: u32) -> Result<Gathered, NotClosed>
    requires { (FIRST_DAY ≤ day) × (day ≤ LAST_DAY) }
    ensures asked { IsAskedAt D.parts desk.old desk.new (AreQuotes day (D.parts desk.old).standing.shards 0)
        (IsToldAt D.parts desk.old (D.parts desk.old).standing.shards gathered result) }
    ensures transcript { NothingIsLost (D.parts desk.old).transcript (D.parts desk.new).transcript }
    ensures same_desk { (D.parts desk.new).standing ≡ (D.parts desk.old).standing }
{
    let mut all = ask_all(alloc, desk, day)?;
    all.sort()?;
    Ok(all)
}
