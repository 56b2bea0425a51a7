//! Looking at what a ledger has of each account.
ghost use Rattle.std.specs.Prelude.{◌≡◌, ◌≤◌, ◌<◌, ◌++◌, pos, false, length, None, IfNone, IfSome, IfOk, IsPermutation};
ghost use Rattle.std.specs.List.{AllByRecursion};
ghost use Rattle.std.specs.List.Sorted.{IsSorted};
ghost use Rattle.std.specs.Ordering.{int_cmp};
ghost use Rattle.pay_postings.specs.Words.{parts};
ghost use Rattle.pay_records.specs.Words.{LedgerRows, LeavesAsBefore};
ghost use Rattle.pay_ledger.specs.Examined.{accounts, PassesRows, AllPassRows, PassRowsBefore, PassUpTo, IsFoundOfRows, IsFoundAmong, IsFoundInRows};
ghost use Rattle.pay_ledger.specs.Stretched.{Ascend, HaveSame, distinct_after, HasRowsOf, AnswersOfStretch};
ghost use Rattle.pay_ledger.specs.Steps.{IsStep};
ghost use Rattle.pay_ledger.specs.Calls.{ChangesNothing, AnswersOfRows, FindsInHeldRows};

use crate::fault::LedgerFault;
use crate::stretch::{Stretch, archived_in, read_stretch};
use pay_postings::Archived;
use pay_records::{fixed_accounts, posted_accounts, tapped_accounts};
use pay_rules::PostFault;
use sqlite::{Alter, Connection, Transaction};
use std::alloc::{AllocError, Global};

/// What looks at what a ledger has of an account: it finds something there, or lets the account pass.
pub trait Examiner<Found: Drop> {
    ghost use Rattle.std.specs.Prelude.{ℕ};
    ghost use Rattle.pay_postings.specs.Words.{ArchivedParts};

    /// What is so of an account that passes, and of what the ledger has of it.
    ghost Passes: { Self → ℕ → ArchivedParts → Type 0 };

    /// What is so of an account of which this is found, and of what the ledger has of it.
    ghost Finds: { Self → ℕ → ArchivedParts → Found → Type 0 };

    /// What it finds.
    fn examine(&self, account: u32, archived: &Archived) -> Result<Option<Found>, PostFault>
        requires { 1 ≤ account }
        ensures passes { IfOk result (λ found. IfNone found (Passes self.now account (parts archived.now))) }
        ensures finds { IfOk result (λ found. IfSome found (Finds self.now account (parts archived.now))) };
}

/// How many accounts are read at once.
const STRETCH: usize = 32;

/// Numbers without those that equal the one before them.
fn distinct(alloc: Global, numbers: &[i64]) -> Result<Vec<i64>, AllocError>
    ensures { IfOk result (λ list. list.items ≡ distinct_after None numbers.now) }
{
    let mut list = Vec::new(alloc);
    let mut last = None;
    for number in numbers {
        if last != Some(*number) {
            list.push(*number)?;
            last = Some(*number);
        }
    }
    Ok(list)
}

/// All these numbers in ascending order. An `Err` is out of memory.
fn in_order(posted: Vec<i64>, tapped: &[i64], fixed: &[i64]) -> Result<Vec<i64>, AllocError>
    ensures same { IfOk result (λ list. IsPermutation ((posted.items ++ tapped.now) ++ fixed.now) list.items) }
    ensures ascending { IfOk result (λ list. IsSorted int_cmp list.items) }
{
    let mut list = posted;
    list.extend_from_slice(tapped)?;
    list.extend_from_slice(fixed)?;
    list.sort_unstable();
    Ok(list)
}

/// All these numbers in ascending order, each once. An `Err` is out of memory.
fn each_once(
    alloc: Global,
    posted: Vec<i64>,
    tapped: &[i64],
    fixed: &[i64],
) -> Result<Vec<i64>, AllocError>
    ensures same { IfOk result (λ list. HaveSame ((posted.items ++ tapped.now) ++ fixed.now) list.items) }
    ensures ascend { IfOk result (λ list. Ascend list.items) }
{
    let list = in_order(posted, tapped, fixed)?;
    distinct(alloc, &list)
}

/// The accounts of all postings, archived taps and archived corrections, in ascending order, each once.
fn all_accounts<S: Alter>(
    alloc: Global,
    tx: &mut Transaction<'_, S>,
) -> Result<Vec<i64>, LedgerFault>
    ensures step { IsStep S.Store tx.old.conn tx.new.conn result }
    ensures found { FindsInHeldRows S.Store tx.old.conn.now tx.new.conn.now result (λ rows list. HaveSame (accounts rows) list.items) }
    ensures ascend { IfOk result (λ list. Ascend list.items) }
{
    let posted = posted_accounts(alloc, tx)?;
    let tapped = tapped_accounts(alloc, tx)?;
    let fixed = fixed_accounts(alloc, tx)?;
    let list = each_once(alloc, posted, &tapped, &fixed)?;
    Ok(list)
}

/// The number of an account, which counts from 1.
fn account_of(number: i64) -> Result<u32, LedgerFault>
    ensures { IfOk result (λ account. (number ≡ pos account) × (1 ≤ account)) }
{
    match u32::try_from(number) {
        Ok(account) if account > 0 => Ok(account),
        _ => Err(LedgerFault::Refused(PostFault::BadArchive)),
    }
}

/// Has what was read of an account examined.
fn examine_one<Found: Drop, E: Examiner<Found>>(
    alloc: Global,
    stretch: &Stretch,
    number: i64,
    examiner: &E,
) -> Result<Option<(u32, Found)>, LedgerFault>
    ensures found { IfOk result (λ found. (rows : LedgerRows) → HasRowsOf rows stretch.now number → IfNone found (PassesRows (E.Passes examiner.now) rows number)) }
    ensures finds { IfOk result (λ found. (rows : LedgerRows) → HasRowsOf rows stretch.now number → IfSome found (λ it. (number ≡ pos it.0) × IsFoundOfRows (E.Finds examiner.now) rows it)) }
{
    let account = account_of(number)?;
    let archived = archived_in(alloc, stretch, account)?;
    match examiner.examine(account, &archived)? {
        Some(found) => Ok(Some((account, found))),
        None => Ok(None),
    }
}

/// Has the accounts of these numbers examined one after another, by what was read of them, up to one of which something is found.
fn examine_each<Found: Drop, E: Examiner<Found>>(
    alloc: Global,
    stretch: &Stretch,
    numbers: &[i64],
    examiner: &E,
) -> Result<Option<(u32, Found)>, LedgerFault>
    ensures found { AnswersOfStretch result stretch.now numbers.now (λ rows found. IfNone found (AllByRecursion (PassesRows (E.Passes examiner.now) rows) numbers.now)) }
    ensures finds { AnswersOfStretch result stretch.now numbers.now (λ rows found. IfSome found (IsFoundAmong (E.Finds examiner.now) numbers.now rows)) }
    ensures up_to { AnswersOfStretch result stretch.now numbers.now (λ rows found. IfSome found (λ it. PassUpTo (E.Passes examiner.now) numbers.now rows it.0)) }
{
    for number in numbers {
        match examine_one(alloc, stretch, *number, examiner)? {
            Some(found) => return Ok(Some(found)),
            None => {}
        }
    }
    Ok(None)
}

/// Reads the accounts of these numbers at once, and has them examined.
fn examine_stretch<S: Alter, Found: Drop, E: Examiner<Found>>(
    alloc: Global,
    tx: &mut Transaction<'_, S>,
    numbers: &[i64],
    examiner: &E,
) -> Result<Option<(u32, Found)>, LedgerFault>
    requires some { 0 < length numbers.now }
    requires ascend { Ascend numbers.now }
    ensures step { IsStep S.Store tx.old.conn tx.new.conn result }
    ensures found { FindsInHeldRows S.Store tx.old.conn.now tx.new.conn.now result (λ rows found. IfNone found (AllByRecursion (PassesRows (E.Passes examiner.now) rows) numbers.now)) }
    ensures finds { FindsInHeldRows S.Store tx.old.conn.now tx.new.conn.now result (λ rows found. IfSome found (IsFoundAmong (E.Finds examiner.now) numbers.now rows)) }
    ensures up_to { FindsInHeldRows S.Store tx.old.conn.now tx.new.conn.now result (λ rows found. IfSome found (λ it. PassUpTo (E.Passes examiner.now) numbers.now rows it.0)) }
{
    let stretch = read_stretch(alloc, tx, numbers)?;
    examine_each(alloc, &stretch, numbers, examiner)
}

/// Has the accounts of these numbers examined, a stretch of them after another, up to one of which something is found.
fn examine_all<S: Alter, Found: Drop, E: Examiner<Found>>(
    alloc: Global,
    tx: &mut Transaction<'_, S>,
    numbers: &[i64],
    examiner: &E,
) -> Result<Option<(u32, Found)>, LedgerFault>
    requires ascend { Ascend numbers.now }
    ensures step { IsStep S.Store tx.old.conn tx.new.conn result }
    ensures found { FindsInHeldRows S.Store tx.old.conn.now tx.new.conn.now result (λ rows found. IfNone found (AllByRecursion (PassesRows (E.Passes examiner.now) rows) numbers.now)) }
    ensures finds { FindsInHeldRows S.Store tx.old.conn.now tx.new.conn.now result (λ rows found. IfSome found (IsFoundAmong (E.Finds examiner.now) numbers.now rows)) }
    ensures up_to { FindsInHeldRows S.Store tx.old.conn.now tx.new.conn.now result (λ rows found. IfSome found (λ it. PassUpTo (E.Passes examiner.now) numbers.now rows it.0)) }
{
    for some in numbers.chunks(STRETCH) {
        match examine_stretch(alloc, tx, some, examiner)? {
            Some(found) => return Ok(Some(found)),
            None => {}
        }
    }
    Ok(None)
}

/// Has all accounts examined in a transaction, which changes nothing.
fn examine_in<S: Alter, Found: Drop, E: Examiner<Found>>(
    alloc: Global,
    tx: &mut Transaction<'_, S>,
    examiner: &E,
) -> Result<Option<(u32, Found)>, LedgerFault>
    ensures step { IsStep S.Store tx.old.conn tx.new.conn result }
    ensures found { FindsInHeldRows S.Store tx.old.conn.now tx.new.conn.now result (λ rows found. IfNone found (AllPassRows (E.Passes examiner.now) rows)) }
    ensures finds { FindsInHeldRows S.Store tx.old.conn.now tx.new.conn.now result (λ rows found. IfSome found (IsFoundInRows (E.Finds examiner.now) rows)) }
    ensures first { FindsInHeldRows S.Store tx.old.conn.now tx.new.conn.now result (λ rows found. IfSome found (λ it. PassRowsBefore (E.Passes examiner.now) rows it.0)) }
{
    let numbers = all_accounts(alloc, tx)?;
    examine_all(alloc, tx, &numbers, examiner)
}

/// Has all accounts of a ledger examined, in ascending order.
pub(crate) fn examine<S: Alter, Found: Drop, E: Examiner<Found>>(
    alloc: Global,
    conn: &mut Connection<S>,
    examiner: &E,
) -> Result<Option<(u32, Found)>, LedgerFault>
    requires { conn.old.in_transaction ≡ false }
    ensures autocommit { conn.new.in_transaction ≡ false }
    ensures found { AnswersOfRows S.Store conn.old conn.new result (λ rows found. IfNone found (AllPassRows (E.Passes examiner.now) rows)) }
    ensures finds { AnswersOfRows S.Store conn.old conn.new result (λ rows found. IfSome found (IsFoundInRows (E.Finds examiner.now) rows)) }
    ensures first { AnswersOfRows S.Store conn.old conn.new result (λ rows found. IfSome found (λ it. PassRowsBefore (E.Passes examiner.now) rows it.0)) }
    ensures unchanged { ChangesNothing S.Store conn.old conn.new }
    ensures survives { LeavesAsBefore S.Store conn.old conn.new }
{
    let _ = conn.is_autocommit();
    let mut tx = conn.transaction();
    examine_in(alloc, &mut tx, examiner)
}
