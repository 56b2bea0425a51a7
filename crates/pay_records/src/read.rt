ghost use Rattle.std.specs.Prelude.{◌≡◌, IfOk, IsPermutation, IsOkUnless};
ghost use Rattle.sqlite.specs.Values.{bound};
ghost use Rattle.sqlite.specs.State.{Shown};
ghost use Rattle.pay_records.specs.Found.{postings_of, shares_of, taps_of, fixes_of, posted_accounts, tapped_accounts, fixed_accounts};
ghost use Rattle.pay_records.specs.Found.{rows_of, postings_between, shares_between, taps_between, fixes_between};
ghost use Rattle.pay_records.specs.Calls.{LeavesAsBefore, CommitsNothingInside, StaysInsideOrOut, Answers, FindsInRows, NeverBadOfRows};

use crate::fault::ReadFault;
use crate::told::{all, all_beside};
use pay_rows::{FixRow, PostingRow, ShareRow, TapRow};
use sqlite::types::ValueRef;
use sqlite::{Alter, Row, Transaction, params};
use std::alloc::Global;

/// What a query shows.
pub(crate) fn query<S: Alter>(
    tx: &mut Transaction<'_, S>,
    sql: &str,
    params: &[ValueRef<'_>],
) -> Result<Vec<Row>, ReadFault>
    ensures same_reference { tx.new.conn.ghost_name ≡ tx.old.conn.ghost_name }
    ensures shown { Answers S.Store tx.old.conn.now tx.new.conn.now result (λ old new rows. Shown sql.now (bound params.now) old new rows.items) }
    ensures store { IsOkUnless result ReadFault.Store }
    ensures inside { StaysInsideOrOut S.Store tx.old.conn.now tx.new.conn.now result }
    ensures unchanged { CommitsNothingInside S.Store tx.old.conn.now tx.new.conn.now }
    ensures survives { LeavesAsBefore S.Store tx.old.conn.now tx.new.conn.now }
{
    Ok(tx.query_all(sql, params)?)
}

/// The postings of the accounts of a stretch of numbers, each beside its account and its number, in ascending order of the latter.
pub fn postings_between<S: Alter>(
    alloc: Global,
    tx: &mut Transaction<'_, S>,
    from: i64,
    through: i64,
) -> Result<Vec<(i64, (i64, PostingRow))>, ReadFault>
    ensures same_reference { tx.new.conn.ghost_name ≡ tx.old.conn.ghost_name }
    ensures found { FindsInRows S.Store tx.old.conn.now tx.new.conn.now result (λ rows list. list.items ≡ postings_between from through rows) }
    ensures never_bad { NeverBadOfRows S.Store tx.old.conn.now tx.new.conn.now result }
    ensures inside { StaysInsideOrOut S.Store tx.old.conn.now tx.new.conn.now result }
    ensures unchanged { CommitsNothingInside S.Store tx.old.conn.now tx.new.conn.now }
    ensures survives { LeavesAsBefore S.Store tx.old.conn.now tx.new.conn.now }
{
    let rows = query(
        tx,
        "SELECT account, id, week, through, version, due, amount, edition FROM postings2 WHERE account >= ?1 AND account <= ?2 ORDER BY id",
        params![from, through],
    )?;
    all_beside(alloc, &rows)
}

/// The shares of the postings of such a stretch, each beside its account, in any order.
pub fn shares_between<S: Alter>(
    alloc: Global,
    tx: &mut Transaction<'_, S>,
    from: i64,
    through: i64,
) -> Result<Vec<(i64, ShareRow)>, ReadFault>
    ensures same_reference { tx.new.conn.ghost_name ≡ tx.old.conn.ghost_name }
    ensures found { FindsInRows S.Store tx.old.conn.now tx.new.conn.now result (λ rows list. IsPermutation (shares_between from through rows) list.items) }
    ensures never_bad { NeverBadOfRows S.Store tx.old.conn.now tx.new.conn.now result }
    ensures inside { StaysInsideOrOut S.Store tx.old.conn.now tx.new.conn.now result }
    ensures unchanged { CommitsNothingInside S.Store tx.old.conn.now tx.new.conn.now }
    ensures survives { LeavesAsBefore S.Store tx.old.conn.now tx.new.conn.now }
{
    let rows = query(
        tx,
        "SELECT account, posting, operator, shares2.amount FROM postings2 JOIN shares2 ON shares2.posting = postings2.id WHERE account >= ?1 AND account <= ?2",
        params![from, through],
    )?;
    all_beside(alloc, &rows)
}

/// The archived taps of such a stretch, each beside its account, in the order in which they were archived.
pub fn taps_between<S: Alter>(
    alloc: Global,
    tx: &mut Transaction<'_, S>,
    from: i64,
    through: i64,
) -> Result<Vec<(i64, TapRow)>, ReadFault>
    ensures same_reference { tx.new.conn.ghost_name ≡ tx.old.conn.ghost_name }
    ensures found { FindsInRows S.Store tx.old.conn.now tx.new.conn.now result (λ rows list. list.items ≡ taps_between from through rows) }
    ensures never_bad { NeverBadOfRows S.Store tx.old.conn.now tx.new.conn.now result }
    ensures inside { StaysInsideOrOut S.Store tx.old.conn.now tx.new.conn.now result }
    ensures unchanged { CommitsNothingInside S.Store tx.old.conn.now tx.new.conn.now }
    ensures survives { LeavesAsBefore S.Store tx.old.conn.now tx.new.conn.now }
{
    let rows = query(
        tx,
        "SELECT account, reader, seq, utc, day, second, place, kind FROM taps WHERE account >= ?1 AND account <= ?2 ORDER BY rowid",
        params![from, through],
    )?;
    all_beside(alloc, &rows)
}

/// The archived corrections of such a stretch, each beside its account, in the order in which they were archived.
pub fn fixes_between<S: Alter>(
    alloc: Global,
    tx: &mut Transaction<'_, S>,
    from: i64,
    through: i64,
) -> Result<Vec<(i64, FixRow)>, ReadFault>
    ensures same_reference { tx.new.conn.ghost_name ≡ tx.old.conn.ghost_name }
    ensures found { FindsInRows S.Store tx.old.conn.now tx.new.conn.now result (λ rows list. list.items ≡ fixes_between from through rows) }
    ensures never_bad { NeverBadOfRows S.Store tx.old.conn.now tx.new.conn.now result }
    ensures inside { StaysInsideOrOut S.Store tx.old.conn.now tx.new.conn.now result }
    ensures unchanged { CommitsNothingInside S.Store tx.old.conn.now tx.new.conn.now }
    ensures survives { LeavesAsBefore S.Store tx.old.conn.now tx.new.conn.now }
{
    let rows = query(
        tx,
        "SELECT account, staff, seq, what, a, b, c, d, e FROM fixes WHERE account >= ?1 AND account <= ?2 ORDER BY rowid",
        params![from, through],
    )?;
    all_beside(alloc, &rows)
}

/// Of rows that each stand beside an account, those of one, in their order.
pub fn rows_of<T: Copy + Drop>(
    alloc: Global,
    account: i64,
    rows: &[(i64, T)],
) -> Result<Vec<T>, ReadFault>
    ensures found { IfOk result (λ list. list.items ≡ rows_of account rows.now) }
    ensures memory { IsOkUnless result ReadFault.Memory }
{
    let mut list = Vec::new(alloc);
    for (own, row) in rows {
        if *own == account {
            list.push(*row)?;
        }
    }
    Ok(list)
}

/// The postings of an account, each beside its number, in ascending order of these.
pub fn postings_of<S: Alter>(
    alloc: Global,
    tx: &mut Transaction<'_, S>,
    account: i64,
) -> Result<Vec<(i64, PostingRow)>, ReadFault>
    ensures same_reference { tx.new.conn.ghost_name ≡ tx.old.conn.ghost_name }
    ensures found { FindsInRows S.Store tx.old.conn.now tx.new.conn.now result (λ rows list. list.items ≡ postings_of account rows) }
    ensures never_bad { NeverBadOfRows S.Store tx.old.conn.now tx.new.conn.now result }
    ensures inside { StaysInsideOrOut S.Store tx.old.conn.now tx.new.conn.now result }
    ensures unchanged { CommitsNothingInside S.Store tx.old.conn.now tx.new.conn.now }
    ensures survives { LeavesAsBefore S.Store tx.old.conn.now tx.new.conn.now }
{
    let rows = postings_between(alloc, tx, account, account)?;
    rows_of(alloc, account, &rows)
}

/// The shares of the postings of an account, in any order.
pub fn shares_of<S: Alter>(
    alloc: Global,
    tx: &mut Transaction<'_, S>,
    account: i64,
) -> Result<Vec<ShareRow>, ReadFault>
    ensures same_reference { tx.new.conn.ghost_name ≡ tx.old.conn.ghost_name }
    ensures found { FindsInRows S.Store tx.old.conn.now tx.new.conn.now result (λ rows list. IsPermutation (shares_of account rows) list.items) }
    ensures never_bad { NeverBadOfRows S.Store tx.old.conn.now tx.new.conn.now result }
    ensures inside { StaysInsideOrOut S.Store tx.old.conn.now tx.new.conn.now result }
    ensures unchanged { CommitsNothingInside S.Store tx.old.conn.now tx.new.conn.now }
    ensures survives { LeavesAsBefore S.Store tx.old.conn.now tx.new.conn.now }
{
    let rows = shares_between(alloc, tx, account, account)?;
    rows_of(alloc, account, &rows)
}

/// The archived taps of an account, in the order in which they were archived.
pub fn taps_of<S: Alter>(
    alloc: Global,
    tx: &mut Transaction<'_, S>,
    account: i64,
) -> Result<Vec<TapRow>, ReadFault>
    ensures same_reference { tx.new.conn.ghost_name ≡ tx.old.conn.ghost_name }
    ensures found { FindsInRows S.Store tx.old.conn.now tx.new.conn.now result (λ rows list. list.items ≡ taps_of account rows) }
    ensures never_bad { NeverBadOfRows S.Store tx.old.conn.now tx.new.conn.now result }
    ensures inside { StaysInsideOrOut S.Store tx.old.conn.now tx.new.conn.now result }
    ensures unchanged { CommitsNothingInside S.Store tx.old.conn.now tx.new.conn.now }
    ensures survives { LeavesAsBefore S.Store tx.old.conn.now tx.new.conn.now }
{
    let rows = taps_between(alloc, tx, account, account)?;
    rows_of(alloc, account, &rows)
}

/// The archived corrections of an account, in the order in which they were archived.
pub fn fixes_of<S: Alter>(
    alloc: Global,
    tx: &mut Transaction<'_, S>,
    account: i64,
) -> Result<Vec<FixRow>, ReadFault>
    ensures same_reference { tx.new.conn.ghost_name ≡ tx.old.conn.ghost_name }
    ensures found { FindsInRows S.Store tx.old.conn.now tx.new.conn.now result (λ rows list. list.items ≡ fixes_of account rows) }
    ensures never_bad { NeverBadOfRows S.Store tx.old.conn.now tx.new.conn.now result }
    ensures inside { StaysInsideOrOut S.Store tx.old.conn.now tx.new.conn.now result }
    ensures unchanged { CommitsNothingInside S.Store tx.old.conn.now tx.new.conn.now }
    ensures survives { LeavesAsBefore S.Store tx.old.conn.now tx.new.conn.now }
{
    let rows = fixes_between(alloc, tx, account, account)?;
    rows_of(alloc, account, &rows)
}

/// All archived taps, each beside its account, in the order in which they were archived.
pub fn all_taps<S: Alter>(
    alloc: Global,
    tx: &mut Transaction<'_, S>,
) -> Result<Vec<(i64, TapRow)>, ReadFault>
    ensures same_reference { tx.new.conn.ghost_name ≡ tx.old.conn.ghost_name }
    ensures found { FindsInRows S.Store tx.old.conn.now tx.new.conn.now result (λ rows list. list.items ≡ rows.taps) }
    ensures never_bad { NeverBadOfRows S.Store tx.old.conn.now tx.new.conn.now result }
    ensures inside { StaysInsideOrOut S.Store tx.old.conn.now tx.new.conn.now result }
    ensures unchanged { CommitsNothingInside S.Store tx.old.conn.now tx.new.conn.now }
    ensures survives { LeavesAsBefore S.Store tx.old.conn.now tx.new.conn.now }
{
    let rows = query(
        tx,
        "SELECT account, reader, seq, utc, day, second, place, kind FROM taps ORDER BY rowid",
        &[],
    )?;
    all_beside(alloc, &rows)
}

/// All archived corrections, each beside its account, in the order in which they were archived.
pub fn all_fixes<S: Alter>(
    alloc: Global,
    tx: &mut Transaction<'_, S>,
) -> Result<Vec<(i64, FixRow)>, ReadFault>
    ensures same_reference { tx.new.conn.ghost_name ≡ tx.old.conn.ghost_name }
    ensures found { FindsInRows S.Store tx.old.conn.now tx.new.conn.now result (λ rows list. list.items ≡ rows.fixes) }
    ensures never_bad { NeverBadOfRows S.Store tx.old.conn.now tx.new.conn.now result }
    ensures inside { StaysInsideOrOut S.Store tx.old.conn.now tx.new.conn.now result }
    ensures unchanged { CommitsNothingInside S.Store tx.old.conn.now tx.new.conn.now }
    ensures survives { LeavesAsBefore S.Store tx.old.conn.now tx.new.conn.now }
{
    let rows = query(
        tx,
        "SELECT account, staff, seq, what, a, b, c, d, e FROM fixes ORDER BY rowid",
        &[],
    )?;
    all_beside(alloc, &rows)
}

/// The account of each posting, in the order in which they were posted.
pub fn posted_accounts<S: Alter>(
    alloc: Global,
    tx: &mut Transaction<'_, S>,
) -> Result<Vec<i64>, ReadFault>
    ensures same_reference { tx.new.conn.ghost_name ≡ tx.old.conn.ghost_name }
    ensures found { FindsInRows S.Store tx.old.conn.now tx.new.conn.now result (λ rows list. list.items ≡ posted_accounts rows) }
    ensures never_bad { NeverBadOfRows S.Store tx.old.conn.now tx.new.conn.now result }
    ensures inside { StaysInsideOrOut S.Store tx.old.conn.now tx.new.conn.now result }
    ensures unchanged { CommitsNothingInside S.Store tx.old.conn.now tx.new.conn.now }
    ensures survives { LeavesAsBefore S.Store tx.old.conn.now tx.new.conn.now }
{
    let rows = query(tx, "SELECT account FROM postings2 ORDER BY id", &[])?;
    all(alloc, &rows)
}

/// The account of each archived tap, in the order in which they were archived.
pub fn tapped_accounts<S: Alter>(
    alloc: Global,
    tx: &mut Transaction<'_, S>,
) -> Result<Vec<i64>, ReadFault>
    ensures same_reference { tx.new.conn.ghost_name ≡ tx.old.conn.ghost_name }
    ensures found { FindsInRows S.Store tx.old.conn.now tx.new.conn.now result (λ rows list. list.items ≡ tapped_accounts rows) }
    ensures never_bad { NeverBadOfRows S.Store tx.old.conn.now tx.new.conn.now result }
    ensures inside { StaysInsideOrOut S.Store tx.old.conn.now tx.new.conn.now result }
    ensures unchanged { CommitsNothingInside S.Store tx.old.conn.now tx.new.conn.now }
    ensures survives { LeavesAsBefore S.Store tx.old.conn.now tx.new.conn.now }
{
    let rows = query(tx, "SELECT account FROM taps ORDER BY rowid", &[])?;
    all(alloc, &rows)
}

/// The account of each archived correction, in the order in which they were archived.
pub fn fixed_accounts<S: Alter>(
    alloc: Global,
    tx: &mut Transaction<'_, S>,
) -> Result<Vec<i64>, ReadFault>
    ensures same_reference { tx.new.conn.ghost_name ≡ tx.old.conn.ghost_name }
    ensures found { FindsInRows S.Store tx.old.conn.now tx.new.conn.now result (λ rows list. list.items ≡ fixed_accounts rows) }
    ensures never_bad { NeverBadOfRows S.Store tx.old.conn.now tx.new.conn.now result }
    ensures inside { StaysInsideOrOut S.Store tx.old.conn.now tx.new.conn.now result }
    ensures unchanged { CommitsNothingInside S.Store tx.old.conn.now tx.new.conn.now }
    ensures survives { LeavesAsBefore S.Store tx.old.conn.now tx.new.conn.now }
{
    let rows = query(tx, "SELECT account FROM fixes ORDER BY rowid", &[])?;
    all(alloc, &rows)
}
