//! What is opened as a ledger, and what of a ledger is no archive.

use crate::given::{MAY_BE_REFUSED, MAY_NOT_BE, WAS_REFUSED, expect_same, sample, tell};
use crate::ledgers::ledger::{NO_MEMORY, empty_ledger, expect_by_store, expect_rows, opened};
use pay_account::Account;
use pay_ledger::{Ledger, LedgerFault, OpenFault};
use pay_rules::PostFault;
use pay_tables::Editions;
use sqlite::{Alter, Connection, Error, MemStore};
use std::process::Abort;

fn run<S: Alter>(conn: &mut Connection<S>, sql: &str) -> Result<(), Error> {
    conn.execute_batch(sql)
}

fn number<S: Alter>(conn: &mut Connection<S>, sql: &str) -> Result<i64, Error> {
    conn.query_row(sql, &[])?.get(0)
}

/// A ledger after these commands, as its database.
fn changed<R: Abort + AllocGlobal>(rt: &R, sql: &str) -> Connection<MemStore> {
    let mut conn = empty_ledger(rt).into_connection();
    run(&mut conn, sql).expect(rt, sql);
    conn
}

/// The rows of an empty ledger.
const EMPTY: &str = "meta farebox 2\n";

/// No table was made, and it is opened then.
fn expect_not_made<R: Abort + AllocGlobal, S: Alter + Drop>(rt: &R, mut conn: Connection<S>) {
    let tables = number(&mut conn, "SELECT count(*) FROM sqlite_schema");
    expect_same(rt, tables, Ok(1));
    let _ = expect_rows(rt, opened(rt, conn), EMPTY);
}

// The database has a table of another kind.
#[test]
fn makes_all_tables_or_none_without_memory(rt: HostRuntime) {
    let mut conn = Connection::open_in_memory(rt.alloc()).expect(&rt, "a database");
    run(&mut conn, "CREATE TABLE other (x INTEGER)").expect(&rt, "a table");
    assert!(rt; conn.is_autocommit());
    tell(&rt, MAY_BE_REFUSED);
    let made = Ledger::open(rt.alloc(), conn);
    tell(&rt, MAY_NOT_BE);
    if let Err((fault, conn)) = made {
        expect_by_store(&rt, fault == OpenFault::Store, fault == OpenFault::Memory);
        expect_not_made(&rt, conn);
    }
}

const BAD: LedgerFault = LedgerFault::Refused(PostFault::BadArchive);

/// Why no accounts are restored.
fn not_restored<S: Alter>(ledger: &mut Ledger<S>, editions: &Editions) -> Option<LedgerFault> {
    let accounts: Result<Vec<Account>, LedgerFault> = ledger.restore(editions);
    accounts.err()
}

/// Nothing is restored from a ledger with such a row, at the second time where memory is refused at the first. No account accepts the row,
/// so all that grows of our own is the list that is read, and only want of memory for that is told.
fn expect_not_restored<R: Abort + AllocGlobal>(rt: &R, sql: &str) {
    let mut ledger = opened(rt, changed(rt, sql));
    let editions = sample(rt);
    tell(rt, MAY_BE_REFUSED);
    let mut fault = not_restored(&mut ledger, &editions);
    tell(rt, MAY_NOT_BE);
    if fault == Some(NO_MEMORY) {
        tell(rt, WAS_REFUSED);
    }
    if fault == Some(NO_MEMORY) || fault == Some(LedgerFault::Store) {
        fault = not_restored(&mut ledger, &editions);
    }
    expect_same(rt, fault, Some(BAD));
}

// Of no form.
#[test]
fn restores_no_bad_correction(rt: HostRuntime) {
    expect_not_restored(&rt, "INSERT INTO fixes VALUES (7, 3, 1, 4, 1, 1, 0, 0, 0)");
}

// At a route that there is not.
#[test]
fn restores_no_bad_tap(rt: HostRuntime) {
    expect_not_restored(
        &rt,
        "INSERT INTO taps VALUES (7, 1, 1, 1704697200, 19730, 25200, 51, 2)",
    );
}
