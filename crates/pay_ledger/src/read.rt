ghost use Rattle.std.specs.Prelude.{◌≡◌, Some, IsOkUnless, OnOk};
ghost use Rattle.std.specs.List.{AllByRecursion};
ghost use Rattle.sqlite.specs.State.{IsUnchanged};
ghost use Rattle.pay_rules.specs.QuoteParts.{QuoteParts};
ghost use Rattle.pay_rules.specs.SetsParts.{SetsParts};
ghost use Rattle.pay_postings.specs.Words.{parts, IsThere};
ghost use Rattle.pay_records.specs.Words.{Does};
ghost use Rattle.pay_ledger.specs.BadRows.{ReadsAs, quoted, in_sets, IsReadFrom};
ghost use Rattle.pay_ledger.specs.Steps.{IsStep};
ghost use Rattle.pay_ledger.specs.Calls.{ReadsIntoIfDone, FindsInHeldRows, RefusesBadRows, RefusesBadRowsOf};

use crate::fault::LedgerFault;
use pay_postings::{Archived, LedgerAccounts, Posted, postings_from_rows};
use pay_records::{fixes_of, postings_of, shares_of, taps_of};
use pay_rules::{Quote, Sets};
use sqlite::{Alter, Transaction};
use std::alloc::Global;

/// Whether the database answers at all: a statement is prepared, and not run. One that does so is open.
pub(crate) fn ask<S: Alter>(tx: &mut Transaction<'_, S>) -> Result<(), LedgerFault>
    ensures step { IsStep S.Store tx.old.conn tx.new.conn result }
    ensures same { Does S.Store tx.old.conn.now tx.new.conn.now result IsUnchanged }
    ensures store { IsOkUnless result LedgerFault.Store }
{
    tx.prepare("SELECT name, version FROM meta")?;
    Ok(())
}

/// What was posted for an account.
pub(crate) fn read_posted<S: Alter>(
    alloc: Global,
    tx: &mut Transaction<'_, S>,
    account: u32,
) -> Result<Posted, LedgerFault>
    ensures step { IsStep S.Store tx.old.conn tx.new.conn result }
    ensures found { FindsInHeldRows S.Store tx.old.conn.now tx.new.conn.now result (λ rows posted. ReadsAs rows account (Some posted)) }
    ensures bad { RefusesBadRows S.Store tx.old.conn.now tx.new.conn.now result account }
{
    let rows = postings_of(alloc, tx, i64::from(account))?;
    let shares = shares_of(alloc, tx, i64::from(account))?;
    Ok(postings_from_rows(alloc, account, &rows, &shares)?)
}

/// All that the ledger has of an account.
pub(crate) fn read_account<S: Alter>(
    alloc: Global,
    tx: &mut Transaction<'_, S>,
    account: u32,
) -> Result<Archived, LedgerFault>
    ensures step { IsStep S.Store tx.old.conn tx.new.conn result }
    ensures found { FindsInHeldRows S.Store tx.old.conn.now tx.new.conn.now result (λ rows archived. IsReadFrom rows account (parts archived)) }
    ensures bad { RefusesBadRows S.Store tx.old.conn.now tx.new.conn.now result account }
{
    let posted = read_posted(alloc, tx, account)?;
    let taps = taps_of(alloc, tx, i64::from(account))?;
    let fixes = fixes_of(alloc, tx, i64::from(account))?;
    Ok(Archived {
        posted,
        taps,
        fixes,
    })
}

/// Reads an account into those that are there, unless it is.
fn read_into<S: Alter>(
    alloc: Global,
    tx: &mut Transaction<'_, S>,
    accounts: &mut LedgerAccounts,
    account: u32,
) -> Result<(), LedgerFault>
    ensures step { IsStep S.Store tx.old.conn tx.new.conn result }
    ensures read { ReadsIntoIfDone S.Store tx.old.conn.now tx.new.conn.now result accounts.old accounts.new }
    ensures there { OnOk result (IsThere accounts.new account) }
    ensures bad { RefusesBadRows S.Store tx.old.conn.now tx.new.conn.now result account }
{
    if accounts.has(account) {
        return Ok(());
    }
    let archived = read_account(alloc, tx, account)?;
    accounts.add(account, archived)?;
    Ok(())
}

/// Reads the accounts of quotes.
pub(crate) fn read_quoted<S: Alter>(
    alloc: Global,
    tx: &mut Transaction<'_, S>,
    accounts: &mut LedgerAccounts,
    quotes: &[Quote],
) -> Result<(), LedgerFault>
    ensures step { IsStep S.Store tx.old.conn tx.new.conn result }
    ensures read { ReadsIntoIfDone S.Store tx.old.conn.now tx.new.conn.now result accounts.old accounts.new }
    ensures there { OnOk result (AllByRecursion (λ (q : QuoteParts). IsThere accounts.new q.account) quotes.now) }
    ensures bad { RefusesBadRowsOf S.Store tx.old.conn.now tx.new.conn.now result (quoted quotes.now) }
{
    for quote in quotes {
        read_into(alloc, tx, accounts, quote.account())?;
    }
    Ok(())
}

/// Reads the accounts of sets.
pub(crate) fn read_sets<S: Alter>(
    alloc: Global,
    tx: &mut Transaction<'_, S>,
    accounts: &mut LedgerAccounts,
    sets: &[Sets],
) -> Result<(), LedgerFault>
    ensures step { IsStep S.Store tx.old.conn tx.new.conn result }
    ensures read { ReadsIntoIfDone S.Store tx.old.conn.now tx.new.conn.now result accounts.old accounts.new }
    ensures there { OnOk result (AllByRecursion (λ (s : SetsParts). IsThere accounts.new s.account) sets.now) }
    ensures bad { RefusesBadRowsOf S.Store tx.old.conn.now tx.new.conn.now result (in_sets sets.now) }
{
    for set in sets {
        read_into(alloc, tx, accounts, set.account())?;
    }
    Ok(())
}
