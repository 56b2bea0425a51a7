ghost use Rattle.std.specs.Prelude.{◌≡◌, IfOk};
ghost use Rattle.sqlite.specs.declared.types.Value.TheVariants.{Int};
ghost use Rattle.sqlite.specs.Order.{column};
ghost use Rattle.pay_records.specs.Rows.{with_posting, with_share, with_tap, with_fix};
ghost use Rattle.pay_records.specs.Calls.{LeavesAsBefore, CommitsNothing, CommitsNothingInside, StaysInside, ChangesRows, ChangesRowsInside};

use pay_rows::{FixRow, PostingRow, ShareRow, TapRow};
use sqlite::{Alter, Error, Row, Transaction, params};

/// The whole number in a column of a row.
fn number_at(row: &Row, at: usize) -> Result<i64, Error>
    ensures { IfOk result (λ number. column row.now at ≡ Int number) }
{
    row.get(at)
}

/// Adds a posting of an account, and tells the number that it gets, which is above those that are there.
pub fn add_posting<S: Alter>(
    tx: &mut Transaction<'_, S>,
    account: i64,
    row: &PostingRow,
) -> Result<i64, Error>
    ensures same_reference { tx.new.conn.ghost_name ≡ tx.old.conn.ghost_name }
    ensures adds { ChangesRowsInside S.Store tx.old.conn.now tx.new.conn.now result (λ id. with_posting id account row.now) }
    ensures inside { StaysInside S.Store tx.old.conn.now tx.new.conn.now result }
    ensures unchanged { CommitsNothingInside S.Store tx.old.conn.now tx.new.conn.now }
    ensures survives { LeavesAsBefore S.Store tx.old.conn.now tx.new.conn.now }
{
    let shown = tx.query_row(
        "INSERT INTO postings2 (account, week, through, version, due, amount, edition) VALUES (?1, ?2, ?3, ?4, ?5, ?6, ?7) RETURNING id",
        params![
            account,
            row.week,
            row.through,
            row.version,
            row.due,
            row.amount,
            row.edition
        ],
    )?;
    number_at(&shown, 0)
}

/// Adds what of a posting fell to an operator.
pub fn add_share<S: Alter>(tx: &mut Transaction<'_, S>, row: &ShareRow) -> Result<usize, Error>
    ensures same_reference { tx.new.conn.ghost_name ≡ tx.old.conn.ghost_name }
    ensures adds { ChangesRows S.Store tx.old.conn.now tx.new.conn.now result (with_share row.now) }
    ensures inside { StaysInside S.Store tx.old.conn.now tx.new.conn.now result }
    ensures unchanged { CommitsNothing S.Store tx.old.conn.now tx.new.conn.now }
    ensures survives { LeavesAsBefore S.Store tx.old.conn.now tx.new.conn.now }
{
    tx.execute(
        "INSERT INTO shares2 (posting, operator, amount) VALUES (?1, ?2, ?3)",
        params![row.posting, row.operator, row.amount],
    )
}

/// Archives an accepted tap of an account.
pub fn add_tap<S: Alter>(
    tx: &mut Transaction<'_, S>,
    account: i64,
    row: &TapRow,
) -> Result<usize, Error>
    ensures same_reference { tx.new.conn.ghost_name ≡ tx.old.conn.ghost_name }
    ensures adds { ChangesRows S.Store tx.old.conn.now tx.new.conn.now result (with_tap account row.now) }
    ensures inside { StaysInside S.Store tx.old.conn.now tx.new.conn.now result }
    ensures unchanged { CommitsNothing S.Store tx.old.conn.now tx.new.conn.now }
    ensures survives { LeavesAsBefore S.Store tx.old.conn.now tx.new.conn.now }
{
    tx.execute(
        "INSERT INTO taps (account, reader, seq, utc, day, second, place, kind) VALUES (?1, ?2, ?3, ?4, ?5, ?6, ?7, ?8)",
        params![
            account, row.reader, row.seq, row.utc, row.day, row.second, row.place, row.kind
        ],
    )
}

/// Archives an accepted correction of an account.
pub fn add_fix<S: Alter>(
    tx: &mut Transaction<'_, S>,
    account: i64,
    row: &FixRow,
) -> Result<usize, Error>
    ensures same_reference { tx.new.conn.ghost_name ≡ tx.old.conn.ghost_name }
    ensures adds { ChangesRows S.Store tx.old.conn.now tx.new.conn.now result (with_fix account row.now) }
    ensures inside { StaysInside S.Store tx.old.conn.now tx.new.conn.now result }
    ensures unchanged { CommitsNothing S.Store tx.old.conn.now tx.new.conn.now }
    ensures survives { LeavesAsBefore S.Store tx.old.conn.now tx.new.conn.now }
{
    tx.execute(
        "INSERT INTO fixes (account, staff, seq, what, a, b, c, d, e) VALUES (?1, ?2, ?3, ?4, ?5, ?6, ?7, ?8, ?9)",
        params![
            account, row.staff, row.seq, row.what, row.a, row.b, row.c, row.d, row.e
        ],
    )
}
