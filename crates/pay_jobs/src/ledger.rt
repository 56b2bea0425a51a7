//! Whether a ledger is taken with what journals give back.
ghost use Rattle.std.specs.Prelude.{IfErr, OnOk};
ghost use Rattle.pay_jobs.specs.Taken.{IsOfDifference, IsDifferenceTold, IsTakenWith, IsNotTakenWith};

use crate::fault::Fault;
use crate::lacked::{lacked_fix, lacked_tap};
use pay_audit::{Difference, first_difference};
use pay_book::Book;
use pay_ledger::Ledger;
use pay_shard::Shard;
use sqlite::Alter;
use std::alloc::Global;

/// What does not agree, as it is told: a ledger without any line of its journal, or the first thing.
pub(crate) fn differs(account: u32, difference: Difference, has_line: bool) -> Fault
    ensures of_difference { IsOfDifference result }
    ensures told { IsDifferenceTold account difference has_line result }
{
    match difference {
        Difference::Tap(_) | Difference::Fix(_) if !has_line => Fault::LedgerAlone,
        Difference::Tap(tap) => Fault::Lacks(lacked_tap(&tap)),
        Difference::Fix(fix) => Fault::Lacks(lacked_fix(&fix)),
        Difference::Posting { week, through } => Fault::PostedOtherwise {
            account,
            week,
            through,
        },
    }
}

/// Takes a ledger with the accounts that its journals give back, if it agrees with these: all that it archives they have accepted,
/// with the same content and stamped alike, and what was posted for the version that an account has is what it owes.
pub fn take_with<S: Alter>(
    alloc: Global,
    ledger: &mut Ledger<S>,
    shard: &Shard<Book>,
) -> Result<(), Fault>
    ensures taken { OnOk result (IsTakenWith S.Store ledger.old ledger.new shard.now) }
    ensures refused { IfErr result (IsNotTakenWith S.Store ledger.old ledger.new shard.now) }
{
    match first_difference(alloc, shard, ledger) {
        Ok(None) => Ok(()),
        Ok(Some((account, difference))) => {
            Err(differs(account, difference, shard.journal().len() > 0))
        }
        Err(fault) => Err(Fault::from(fault)),
    }
}
