ghost use Rattle.std.specs.Prelude.{◌≡◌, ◌++◌, ◌∷◌, [], Some, Ok, false, IfOk, OnOk};
ghost use Rattle.pay_postings.specs.Words.{postings_of, net_from_rows};
ghost use Rattle.pay_records.specs.Words.{LeavesAsBefore};
ghost use Rattle.pay_ledger.specs.BadRows.{ReadsAs, net_said, IsNetOf};
ghost use Rattle.pay_ledger.specs.Last.{has_row, newest_in};
ghost use Rattle.pay_ledger.specs.Steps.{IsStep, IsRefused};
ghost use Rattle.pay_ledger.specs.Calls.{ChangesNothing, AnswersOfRows, RefusesOfRows, FailsByStoreAloneOfRows, RefusesBadRows, RefusesBadAmounts};

use crate::fault::LedgerFault;
use crate::last::{LastPosting, is_among, last_account, newest_of};
use crate::read::read_posted;
use pay_postings::{Posted, net_from_rows};
use pay_records::{all_fixes, all_taps, posted_accounts, postings_of};
use pay_rows::{FixRow, PostingRow, TapRow};
use pay_rules::{PostFault, Posting};
use sqlite::{Alter, Connection, Transaction};
use std::alloc::{AllocError, Global};

/// What was posted for an account.
pub(crate) fn posted_of<S: Alter>(
    alloc: Global,
    conn: &mut Connection<S>,
    account: u32,
) -> Result<Posted, LedgerFault>
    requires { conn.old.in_transaction ≡ false }
    ensures autocommit { conn.new.in_transaction ≡ false }
    ensures found { AnswersOfRows S.Store conn.old conn.new result (λ rows posted. ReadsAs rows account (Some posted)) }
    ensures bad { RefusesBadRows S.Store conn.old conn.new result account }
    ensures unchanged { ChangesNothing S.Store conn.old conn.new }
    ensures survives { LeavesAsBefore S.Store conn.old conn.new }
{
    let _ = conn.is_autocommit();
    let mut tx = conn.transaction();
    read_posted(alloc, &mut tx, account)
}

/// What the rows of an account's postings come to for a week.
fn net_of_rows(week: u32, rows: &[(i64, PostingRow)]) -> Result<i64, LedgerFault>
    ensures { IsNetOf result (net_from_rows week rows.now) }
{
    match net_from_rows(week, rows) {
        Some(net) => Ok(net),
        None => Err(LedgerFault::Refused(PostFault::BadArchive)),
    }
}

fn read_net<S: Alter>(
    alloc: Global,
    tx: &mut Transaction<'_, S>,
    account: u32,
    week: u32,
) -> Result<i64, LedgerFault>
    ensures step { IsStep S.Store tx.old.conn tx.new.conn result }
    ensures found { AnswersOfRows S.Store tx.old.conn.now tx.new.conn.now result (λ rows net. net_said rows account week ≡ Some net) }
    ensures bad { RefusesBadAmounts S.Store tx.old.conn.now tx.new.conn.now result account week }
{
    let rows = postings_of(alloc, tx, i64::from(account))?;
    net_of_rows(week, &rows)
}

/// What an account was charged for a week less what it was given back, by the amounts of its postings alone.
pub(crate) fn net_of<S: Alter>(
    alloc: Global,
    conn: &mut Connection<S>,
    account: u32,
    week: u32,
) -> Result<i64, LedgerFault>
    requires { conn.old.in_transaction ≡ false }
    ensures autocommit { conn.new.in_transaction ≡ false }
    ensures found { AnswersOfRows S.Store conn.old conn.new result (λ rows net. net_said rows account week ≡ Some net) }
    ensures bad { RefusesBadAmounts S.Store conn.old conn.new result account week }
    ensures unchanged { ChangesNothing S.Store conn.old conn.new }
    ensures survives { LeavesAsBefore S.Store conn.old conn.new }
{
    let _ = conn.is_autocommit();
    let mut tx = conn.transaction();
    read_net(alloc, &mut tx, account, week)
}

fn read_has<S: Alter>(
    alloc: Global,
    tx: &mut Transaction<'_, S>,
    posting: &LastPosting,
) -> Result<bool, LedgerFault>
    ensures step { IsStep S.Store tx.old.conn tx.new.conn result }
    ensures found { AnswersOfRows S.Store tx.old.conn.now tx.new.conn.now result (λ rows has. has ≡ has_row posting.now rows) }
    ensures never_bad { FailsByStoreAloneOfRows S.Store tx.old.conn.now tx.new.conn.now result }
{
    let rows = postings_of(alloc, tx, i64::from(posting.account))?;
    Ok(is_among(posting, &rows))
}

/// Whether a row is of this posting.
pub(crate) fn has_row<S: Alter>(
    alloc: Global,
    conn: &mut Connection<S>,
    posting: &LastPosting,
) -> Result<bool, LedgerFault>
    requires { conn.old.in_transaction ≡ false }
    ensures autocommit { conn.new.in_transaction ≡ false }
    ensures found { AnswersOfRows S.Store conn.old conn.new result (λ rows has. has ≡ has_row posting.now rows) }
    ensures never_bad { FailsByStoreAloneOfRows S.Store conn.old conn.new result }
    ensures unchanged { ChangesNothing S.Store conn.old conn.new }
    ensures survives { LeavesAsBefore S.Store conn.old conn.new }
{
    let _ = conn.is_autocommit();
    let mut tx = conn.transaction();
    read_has(alloc, &mut tx, posting)
}

/// Reads the account of each posting, and then the rows of the last one.
fn read_newest<S: Alter>(
    alloc: Global,
    tx: &mut Transaction<'_, S>,
) -> Result<Option<LastPosting>, LedgerFault>
    ensures step { IsStep S.Store tx.old.conn tx.new.conn result }
    ensures found { AnswersOfRows S.Store tx.old.conn.now tx.new.conn.now result (λ rows newest. newest_in rows ≡ Ok newest) }
    ensures refused { RefusesOfRows S.Store tx.old.conn.now tx.new.conn.now result (λ rows fault. IsRefused fault (newest_in rows)) }
{
    let accounts = posted_accounts(alloc, tx)?;
    let Some(account) = last_account(&accounts) else {
        return Ok(None);
    };
    let rows = postings_of(alloc, tx, account)?;
    newest_of(account, &rows)
}

/// The newest posting, which is that of the last row.
pub(crate) fn newest<S: Alter>(
    alloc: Global,
    conn: &mut Connection<S>,
) -> Result<Option<LastPosting>, LedgerFault>
    requires { conn.old.in_transaction ≡ false }
    ensures autocommit { conn.new.in_transaction ≡ false }
    ensures found { AnswersOfRows S.Store conn.old conn.new result (λ rows newest. newest_in rows ≡ Ok newest) }
    ensures refused { RefusesOfRows S.Store conn.old conn.new result (λ rows fault. IsRefused fault (newest_in rows)) }
    ensures unchanged { ChangesNothing S.Store conn.old conn.new }
    ensures survives { LeavesAsBefore S.Store conn.old conn.new }
{
    let _ = conn.is_autocommit();
    let mut tx = conn.transaction();
    read_newest(alloc, &mut tx)
}

/// Adds a posting, if it is of a week. An `Err` is out of memory.
fn add_of_week(
    list: &mut Vec<Posting>,
    posting: &Posting,
    account: u32,
    week: u32,
) -> Result<(), AllocError>
    ensures { OnOk result (list.new.items ≡ list.old.items ++ postings_of account week (posting.now ∷ [])) }
{
    if posting.quote.account() == account && posting.quote.week() == week {
        list.push(posting.clone()?)?;
    }
    Ok(())
}

/// The postings of an account and a week, in order. An `Err` is out of memory.
pub(crate) fn of_week(
    alloc: Global,
    posted: &Posted,
    account: u32,
    week: u32,
) -> Result<Vec<Posting>, AllocError>
    ensures { IfOk result (λ list. list.items ≡ postings_of account week posted.now) }
{
    let mut list = Vec::new(alloc);
    for posting in posted.as_slice() {
        add_of_week(&mut list, posting, account, week)?;
    }
    Ok(list)
}

/// The rows of all archived taps and corrections, each beside its account.
#[derive(Drop)]
pub(crate) struct Archive {
    pub(crate) taps: Vec<(i64, TapRow)>,
    pub(crate) fixes: Vec<(i64, FixRow)>,
}

fn read_archive<S: Alter>(
    alloc: Global,
    tx: &mut Transaction<'_, S>,
) -> Result<Archive, LedgerFault>
    ensures step { IsStep S.Store tx.old.conn tx.new.conn result }
    ensures found { AnswersOfRows S.Store tx.old.conn.now tx.new.conn.now result (λ rows archive. (archive.taps.items ≡ rows.taps) × (archive.fixes.items ≡ rows.fixes)) }
    ensures never_bad { FailsByStoreAloneOfRows S.Store tx.old.conn.now tx.new.conn.now result }
{
    let taps = all_taps(alloc, tx)?;
    let fixes = all_fixes(alloc, tx)?;
    Ok(Archive { taps, fixes })
}

/// All that is archived.
pub(crate) fn archive_of<S: Alter>(
    alloc: Global,
    conn: &mut Connection<S>,
) -> Result<Archive, LedgerFault>
    requires { conn.old.in_transaction ≡ false }
    ensures autocommit { conn.new.in_transaction ≡ false }
    ensures found { AnswersOfRows S.Store conn.old conn.new result (λ rows archive. (archive.taps.items ≡ rows.taps) × (archive.fixes.items ≡ rows.fixes)) }
    ensures never_bad { FailsByStoreAloneOfRows S.Store conn.old conn.new result }
    ensures unchanged { ChangesNothing S.Store conn.old conn.new }
    ensures survives { LeavesAsBefore S.Store conn.old conn.new }
{
    let _ = conn.is_autocommit();
    let mut tx = conn.transaction();
    read_archive(alloc, &mut tx)
}
