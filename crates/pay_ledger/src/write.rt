ghost use Rattle.std.specs.Prelude.{◌≡◌, ◌∷◌, [], IsTrue, IsOkUnless, IfErr};
ghost use Rattle.pay_ledger.specs.Faults.{is_of_store};
ghost use Rattle.pay_records.specs.Words.{Does};
ghost use Rattle.pay_ledger.specs.Stores.{with_shares, with_postings, with_taps, with_fixes};
ghost use Rattle.pay_ledger.specs.Steps.{IsStep, RowsGrow};
ghost use Rattle.pay_ledger.specs.Calls.{GrowsInside};

use crate::fault::LedgerFault;
use pay_postings::{posting_row, share_rows};
use pay_records::{add_fix, add_posting, add_share, add_tap};
use pay_rows::ShareRow;
use pay_rules::{Fix, Posting, Tap};
use pay_set_rows::{fix_row, tap_row};
use sqlite::{Alter, Transaction};
use std::alloc::Global;

/// Writes what of a posting fell to operators.
fn write_shares<S: Alter>(
    tx: &mut Transaction<'_, S>,
    shares: &[ShareRow],
) -> Result<(), LedgerFault>
    ensures step { IsStep S.Store tx.old.conn tx.new.conn result }
    ensures writes { Does S.Store tx.old.conn.now tx.new.conn.now result (λ old new. RowsGrow old new (with_shares shares.now)) }
    ensures store { IsOkUnless result LedgerFault.Store }
{
    for share in shares {
        add_share(tx, share)?;
    }
    Ok(())
}

/// Writes a posting and what of it fell to operators: the number that it gets.
fn write_posting<S: Alter>(
    alloc: Global,
    tx: &mut Transaction<'_, S>,
    posting: &Posting,
) -> Result<i64, LedgerFault>
    ensures step { IsStep S.Store tx.old.conn tx.new.conn result }
    ensures writes { GrowsInside S.Store tx.old.conn.now tx.new.conn.now result (with_postings (posting.now ∷ [])) }
    ensures of_store { IfErr result (λ fault. IsTrue (is_of_store fault)) }
{
    let id = add_posting(
        tx,
        i64::from(posting.quote.account()),
        &posting_row(posting),
    )?;
    let shares = share_rows(alloc, id, posting)?;
    write_shares(tx, &shares)?;
    Ok(id)
}

/// Writes postings, in their order: the number of the last one, if there is one.
pub(crate) fn write_postings<S: Alter>(
    alloc: Global,
    tx: &mut Transaction<'_, S>,
    postings: &[Posting],
) -> Result<Option<i64>, LedgerFault>
    ensures step { IsStep S.Store tx.old.conn tx.new.conn result }
    ensures writes { GrowsInside S.Store tx.old.conn.now tx.new.conn.now result (with_postings postings.now) }
    ensures of_store { IfErr result (λ fault. IsTrue (is_of_store fault)) }
{
    let mut last = None;
    for posting in postings {
        last = Some(write_posting(alloc, tx, posting)?);
    }
    Ok(last)
}

/// Archives taps, in their order.
pub(crate) fn write_taps<S: Alter>(
    tx: &mut Transaction<'_, S>,
    taps: &[Tap],
) -> Result<(), LedgerFault>
    ensures step { IsStep S.Store tx.old.conn tx.new.conn result }
    ensures writes { GrowsInside S.Store tx.old.conn.now tx.new.conn.now result (with_taps taps.now) }
    ensures store { IsOkUnless result LedgerFault.Store }
{
    for tap in taps {
        add_tap(tx, i64::from(tap.account), &tap_row(tap))?;
    }
    Ok(())
}

/// Archives corrections, in their order.
pub(crate) fn write_fixes<S: Alter>(
    tx: &mut Transaction<'_, S>,
    fixes: &[Fix],
) -> Result<(), LedgerFault>
    ensures step { IsStep S.Store tx.old.conn tx.new.conn result }
    ensures writes { GrowsInside S.Store tx.old.conn.now tx.new.conn.now result (with_fixes fixes.now) }
    ensures store { IsOkUnless result LedgerFault.Store }
{
    for fix in fixes {
        add_fix(tx, i64::from(fix.account), &fix_row(fix))?;
    }
    Ok(())
}
