//! The accounts of a shard beside those of a ledger.
ghost use Rattle.std.specs.Prelude.{◌≡◌, ◌<◌, ◌≤◌, IfNone, IfSome, IfOk};
ghost use Rattle.pay_postings.specs.Words.{AgreesWith};
ghost use Rattle.pay_records.specs.Words.{LeavesAsBefore};
ghost use Rattle.pay_shard.specs.ShardParts.{state_now};
ghost use Rattle.pay_ledger.specs.Words.{AnswersOfLedger, ChangesNothing};
ghost use Rattle.pay_audit.specs.Differs.{DiffersIn, AgreeBefore, AgreeAfter, AgreeBetween};

use crate::comparing::difference;
use crate::difference::Difference;
use pay_ledger::{Examiner, Ledger, LedgerFault};
use pay_postings::Archived;
use pay_rules::{Fares, PostFault};
use pay_shard::Shard;
use sqlite::Alter;
use std::alloc::Global;

/// The accounts of a shard, beside which those of a ledger are looked at that are above one.
#[derive(Drop)]
struct Beside<'a, F: Fares> {
    alloc: Global,
    shard: &'a Shard<F>,
    after: u32,
}

impl<'a, F: Fares> Examiner<Difference> for Beside<'a, F> {
    ghost use Rattle.std.specs.Prelude.{◌<◌};
    ghost use Rattle.pay_rules.specs.State.{accepted_of};
    ghost use Rattle.pay_shard.specs.ShardParts.{state_now};
    ghost use Rattle.pay_audit.specs.Differs.{AgreesAbove, Differs};

    ghost Passes = { λ it account archived. AgreesAbove it.after it.shard.now.editions (state_now it.shard.now) account archived };

    ghost Finds = { λ it account archived found. (it.after < account) × Differs it.shard.now.editions account (accepted_of (state_now it.shard.now) account) archived found };

    fn examine(&self, account: u32, archived: &Archived) -> Result<Option<Difference>, PostFault> {
        if account <= self.after {
            return Ok(None);
        }
        let editions = self.shard.editions();
        match self.shard.account(account) {
            Some(it) => difference(it, editions, archived),
            None => difference(&F::new(self.alloc, account), editions, archived),
        }
    }
}

/// What was found of an account, which is above another. If it is not, the store has given another account than was asked of.
fn found_after(
    after: u32,
    found: Option<(u32, Difference)>,
) -> Result<Option<(u32, Difference)>, LedgerFault>
    ensures same { IfOk result (λ it. it ≡ found) }
    ensures above { IfOk result (λ it. IfSome it (λ of. after < of.0)) }
{
    match found {
        Some((account, _)) if account <= after => Err(LedgerFault::Store),
        found => Ok(found),
    }
}

/// The first account above `after`, in ascending order, of which a ledger has something that does not agree with what a shard's account
/// has accepted, and the first such thing: with `after` the account that was told last, 0 at first, each that differs is told in turn.
/// All that is there of accounts up to `after` is still read, and refused by `BadArchive` where it is bad.
pub fn next_difference<F: Fares, S: Alter>(
    alloc: Global,
    shard: &Shard<F>,
    ledger: &mut Ledger<S>,
    after: u32,
) -> Result<Option<(u32, Difference)>, LedgerFault>
    ensures agree { AnswersOfLedger S.Store ledger.old ledger.new result (λ it found. IfNone found (AgreeAfter shard.now.editions (state_now shard.now) it after)) }
    ensures agree_not { AnswersOfLedger S.Store ledger.old ledger.new result (λ it found. IfSome found (λ _. AgreeAfter shard.now.editions (state_now shard.now) it after → ⊥)) }
    ensures differs { AnswersOfLedger S.Store ledger.old ledger.new result (λ it found. IfSome found (DiffersIn shard.now.editions (state_now shard.now) it)) }
    ensures first { AnswersOfLedger S.Store ledger.old ledger.new result (λ it found. IfSome found (λ of. AgreeBetween shard.now.editions (state_now shard.now) it after of.0)) }
    // So it is whatever the store gives: a loop that asks on from there ends.
    ensures above { IfOk result (λ found. IfSome found (λ of. after < of.0)) }
    ensures unchanged { ChangesNothing S.Store ledger.old ledger.new }
    ensures survives { LeavesAsBefore S.Store ledger.old ledger.new }
{
    let found = ledger.examine(&Beside {
        alloc,
        shard,
        after,
    })?;
    found_after(after, found)
}

/// The first account, in ascending order, of which a ledger has something that does not agree with what a shard's account has accepted,
/// and the first such thing. Where there is none, all that is archived was accepted, with the same content, and what was posted
/// for the version that an account has is what it owes.
pub fn first_difference<F: Fares, S: Alter>(
    alloc: Global,
    shard: &Shard<F>,
    ledger: &mut Ledger<S>,
) -> Result<Option<(u32, Difference)>, LedgerFault>
    ensures agree { AnswersOfLedger S.Store ledger.old ledger.new result (λ it found. IfNone found (AgreesWith shard.now.editions (state_now shard.now) it)) }
    ensures agree_not { AnswersOfLedger S.Store ledger.old ledger.new result (λ it found. IfSome found (λ _. AgreesWith shard.now.editions (state_now shard.now) it → ⊥)) }
    ensures differs { AnswersOfLedger S.Store ledger.old ledger.new result (λ it found. IfSome found (DiffersIn shard.now.editions (state_now shard.now) it)) }
    ensures first { AnswersOfLedger S.Store ledger.old ledger.new result (λ it found. IfSome found (λ of. AgreeBefore shard.now.editions (state_now shard.now) it of.0)) }
    ensures unchanged { ChangesNothing S.Store ledger.old ledger.new }
    ensures survives { LeavesAsBefore S.Store ledger.old ledger.new }
{
    next_difference(alloc, shard, ledger, 0)
}
