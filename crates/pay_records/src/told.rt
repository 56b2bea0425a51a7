ghost use Rattle.std.specs.Prelude.{◌≡◌, ◌≢◌, ◌≤◌, ℕ, map, IfOk, OnOk, IfErr};
ghost use Rattle.std.specs.List.{AllByRecursion};
ghost use Rattle.sqlite.specs.Order.{Row as Values, column};
ghost use Rattle.pay_records.specs.Told.{IsWhole, AreWhole, whole_in, IsBadUnless};

use crate::fault::ReadFault;
use pay_rows::{FixRow, PostingRow, ShareRow, TapRow};
use sqlite::Row;
use sqlite::types::ValueRef;
use std::alloc::Global;

/// The whole number in a column of a row. It is looked at where it lies, which takes no memory.
fn whole(row: &Row, at: usize) -> Result<i64, ReadFault>
    ensures told { IfOk result (λ number. number ≡ whole_in (column row.now at)) }
    ensures is_whole { OnOk result (IsWhole (column row.now at)) }
    ensures bad { IfErr result (IsBadUnless (IsWhole (column row.now at))) }
{
    match row.get_ref(at) {
        Ok(ValueRef::Int(number)) => Ok(number),
        _ => Err(ReadFault::BadArchive),
    }
}

/// What columns of whole numbers tell.
pub(crate) trait Told: Sized {
    /// How many columns it takes.
    ghost width: { ℕ };

    /// What the columns of a row tell from one on.
    ghost told_at: { ℕ → Values → Self };

    /// It by the columns of a row from one on.
    fn told(row: &Row, from: usize) -> Result<Self, ReadFault>
        requires { from ≤ 1 }
        ensures told { IfOk result (λ it. it ≡ told_at from row.now) }
        ensures are_whole { OnOk result (AreWhole from width row.now) }
        ensures bad { IfErr result (IsBadUnless (AreWhole from width row.now)) };
}

/// Number, week, through, version, due, amount and edition.
impl Told for (i64, PostingRow) {
    ghost use Rattle.pay_records.specs.Told.{posting_at};

    ghost width = { 7 };

    ghost told_at = { posting_at };

    fn told(row: &Row, from: usize) -> Result<(i64, PostingRow), ReadFault> {
        let number = whole(row, from)?;
        let posting = PostingRow {
            week: whole(row, from + 1)?,
            through: whole(row, from + 2)?,
            version: whole(row, from + 3)?,
            due: whole(row, from + 4)?,
            amount: whole(row, from + 5)?,
            edition: whole(row, from + 6)?,
        };
        Ok((number, posting))
    }
}

/// Posting, operator and amount.
impl Told for ShareRow {
    ghost use Rattle.pay_records.specs.Told.{share_at};

    ghost width = { 3 };

    ghost told_at = { share_at };

    fn told(row: &Row, from: usize) -> Result<ShareRow, ReadFault> {
        Ok(ShareRow {
            posting: whole(row, from)?,
            operator: whole(row, from + 1)?,
            amount: whole(row, from + 2)?,
        })
    }
}

/// Reader, seq, utc, day, second, place and kind.
impl Told for TapRow {
    ghost use Rattle.pay_records.specs.Told.{tap_at};

    ghost width = { 7 };

    ghost told_at = { tap_at };

    fn told(row: &Row, from: usize) -> Result<TapRow, ReadFault> {
        Ok(TapRow {
            reader: whole(row, from)?,
            seq: whole(row, from + 1)?,
            utc: whole(row, from + 2)?,
            day: whole(row, from + 3)?,
            second: whole(row, from + 4)?,
            place: whole(row, from + 5)?,
            kind: whole(row, from + 6)?,
        })
    }
}

/// Staff, seq, what, and a to e.
impl Told for FixRow {
    ghost use Rattle.pay_records.specs.Told.{fix_at};

    ghost width = { 8 };

    ghost told_at = { fix_at };

    fn told(row: &Row, from: usize) -> Result<FixRow, ReadFault> {
        Ok(FixRow {
            staff: whole(row, from)?,
            seq: whole(row, from + 1)?,
            what: whole(row, from + 2)?,
            a: whole(row, from + 3)?,
            b: whole(row, from + 4)?,
            c: whole(row, from + 5)?,
            d: whole(row, from + 6)?,
            e: whole(row, from + 7)?,
        })
    }
}

/// One number.
impl Told for i64 {
    ghost use Rattle.pay_records.specs.Told.{number_at};

    ghost width = { 1 };

    ghost told_at = { number_at };

    fn told(row: &Row, from: usize) -> Result<i64, ReadFault> {
        whole(row, from)
    }
}

/// The account that stands before it, and it.
pub(crate) fn beside<T: Told>(row: &Row) -> Result<(i64, T), ReadFault>
    ensures told { IfOk result (λ it. (it.0 ≡ whole_in (column row.now 0)) × (it.1 ≡ T.told_at 1 row.now)) }
    ensures are_whole { OnOk result (IsWhole (column row.now 0) × AreWhole 1 T.width row.now) }
    ensures bad { IfErr result (IsBadUnless (IsWhole (column row.now 0) × AreWhole 1 T.width row.now)) }
{
    let first = whole(row, 0)?;
    Ok((first, T::told(row, 1)?))
}

/// What all rows tell.
pub(crate) fn all<T: Told + Drop>(alloc: Global, rows: &[Row]) -> Result<Vec<T>, ReadFault>
    ensures told { IfOk result (λ list. list.items ≡ map (T.told_at 0) rows.now) }
    ensures are_whole { OnOk result (AllByRecursion (AreWhole 0 T.width) rows.now) }
    ensures bad { IfErr result (λ fault. fault ≢ ReadFault.Memory → IsBadUnless (AllByRecursion (AreWhole 0 T.width) rows.now) fault) }
{
    let mut list = Vec::new(alloc);
    for row in rows {
        list.push(T::told(row, 0)?)?;
    }
    Ok(list)
}

/// What all rows tell, each beside the account before it.
pub(crate) fn all_beside<T: Told + Drop>(
    alloc: Global,
    rows: &[Row],
) -> Result<Vec<(i64, T)>, ReadFault>
    ensures told { IfOk result (λ list. list.items ≡ map (λ r. (whole_in (column r 0), T.told_at 1 r)) rows.now) }
    ensures are_whole { OnOk result (AllByRecursion (λ r. IsWhole (column r 0) × AreWhole 1 T.width r) rows.now) }
    ensures bad { IfErr result (λ fault. fault ≢ ReadFault.Memory → IsBadUnless (AllByRecursion (λ r. IsWhole (column r 0) × AreWhole 1 T.width r) rows.now) fault) }
{
    let mut list = Vec::new(alloc);
    for row in rows {
        list.push(beside(row)?)?;
    }
    Ok(list)
}
