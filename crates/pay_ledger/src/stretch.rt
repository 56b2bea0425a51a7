//! What the tables have of a stretch of accounts, read at once.
ghost use Rattle.std.specs.Prelude.{◌<◌, length, pos, IfOk};
ghost use Rattle.pay_postings.specs.Words.{parts};
ghost use Rattle.pay_records.specs.Words.{LedgerRows};
ghost use Rattle.pay_ledger.specs.BadRows.{IsReadFrom};
ghost use Rattle.pay_ledger.specs.Stretched.{Ascend, IsBetween, HasRowsOf, HasRowsOfEach};
ghost use Rattle.pay_ledger.specs.Steps.{IsStep};
ghost use Rattle.pay_ledger.specs.Calls.{FindsInHeldRows};

use crate::fault::LedgerFault;
use pay_postings::{Archived, postings_from_rows};
use pay_records::{fixes_between, postings_between, rows_of, shares_between, taps_between};
use pay_rows::{FixRow, PostingRow, ShareRow, TapRow};
use sqlite::{Alter, Transaction};
use std::alloc::Global;

/// The rows of a stretch of accounts, each beside its account, and a posting beside its number too.
#[derive(Drop)]
pub(crate) struct Stretch {
    /// Those of postings, by number.
    pub(crate) postings: Vec<(i64, (i64, PostingRow))>,
    /// Those of the shares of these, in any order.
    pub(crate) shares: Vec<(i64, ShareRow)>,
    /// Those of archived taps, in the order in which they were written.
    pub(crate) taps: Vec<(i64, TapRow)>,
    /// Those of archived corrections, in that order too.
    pub(crate) fixes: Vec<(i64, FixRow)>,
}

/// Reads the accounts from one number through another.
fn read_between<S: Alter>(
    alloc: Global,
    tx: &mut Transaction<'_, S>,
    from: i64,
    through: i64,
) -> Result<Stretch, LedgerFault>
    ensures step { IsStep S.Store tx.old.conn tx.new.conn result }
    ensures found { FindsInHeldRows S.Store tx.old.conn.now tx.new.conn.now result (λ rows stretch. IsBetween rows from through stretch) }
{
    let postings = postings_between(alloc, tx, from, through)?;
    let shares = shares_between(alloc, tx, from, through)?;
    let taps = taps_between(alloc, tx, from, through)?;
    let fixes = fixes_between(alloc, tx, from, through)?;
    Ok(Stretch {
        postings,
        shares,
        taps,
        fixes,
    })
}

/// Reads the accounts of these numbers, and of those between them.
pub(crate) fn read_stretch<S: Alter>(
    alloc: Global,
    tx: &mut Transaction<'_, S>,
    numbers: &[i64],
) -> Result<Stretch, LedgerFault>
    requires some { 0 < length numbers.now }
    requires ascend { Ascend numbers.now }
    ensures step { IsStep S.Store tx.old.conn tx.new.conn result }
    ensures found { FindsInHeldRows S.Store tx.old.conn.now tx.new.conn.now result (λ rows stretch. HasRowsOfEach rows stretch numbers.now) }
{
    read_between(alloc, tx, numbers[0], numbers[numbers.len() - 1])
}

/// What was read of an account.
pub(crate) fn archived_in(
    alloc: Global,
    stretch: &Stretch,
    account: u32,
) -> Result<Archived, LedgerFault>
    ensures { IfOk result (λ archived. (rows : LedgerRows) → HasRowsOf rows stretch.now (pos account) → IsReadFrom rows account (parts archived)) }
{
    let postings = rows_of(alloc, i64::from(account), &stretch.postings)?;
    let shares = rows_of(alloc, i64::from(account), &stretch.shares)?;
    let posted = postings_from_rows(alloc, account, &postings, &shares)?;
    let taps = rows_of(alloc, i64::from(account), &stretch.taps)?;
    let fixes = rows_of(alloc, i64::from(account), &stretch.fixes)?;
    Ok(Archived {
        posted,
        taps,
        fixes,
    })
}
