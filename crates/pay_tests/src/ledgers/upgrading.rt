//! Ledgers of version 1: what is copied of one that is opened, and that it is copied whole or not at all.

use crate::given::{MAY_BE_REFUSED, MAY_NOT_BE, expect_same, tell};
use crate::ledgers::ledger::{expect_by_store, expect_rows, opened};
use pay_ledger::{Ledger, OpenFault};
use sqlite::{Alter, Connection, Error, MemStore};
use std::process::Abort;

/// The tables of version 1, as that made them, with the two postings of a journey: a maximum fare was charged at its touch in, and most of
/// it given back at its touch out. Their numbers are not the first ones.
const FIRST: &str =
    "CREATE TABLE meta (name TEXT NOT NULL PRIMARY KEY, version INTEGER NOT NULL) STRICT;
CREATE TABLE postings (id INTEGER PRIMARY KEY AUTOINCREMENT, account INTEGER NOT NULL, week INTEGER NOT NULL, through INTEGER NOT NULL, version INTEGER NOT NULL, due INTEGER NOT NULL, amount INTEGER NOT NULL, UNIQUE (account, week, through, version)) STRICT;
CREATE TABLE shares (posting INTEGER NOT NULL REFERENCES postings (id), operator INTEGER NOT NULL, amount INTEGER NOT NULL, PRIMARY KEY (posting, operator)) STRICT;
CREATE TABLE taps (account INTEGER NOT NULL, reader INTEGER NOT NULL, seq INTEGER NOT NULL, utc INTEGER NOT NULL, day INTEGER NOT NULL, second INTEGER NOT NULL, place INTEGER NOT NULL, kind INTEGER NOT NULL, PRIMARY KEY (account, reader, seq)) STRICT;
CREATE TABLE fixes (account INTEGER NOT NULL, staff INTEGER NOT NULL, seq INTEGER NOT NULL, what INTEGER NOT NULL, a INTEGER NOT NULL, b INTEGER NOT NULL, c INTEGER NOT NULL, d INTEGER NOT NULL, e INTEGER NOT NULL, PRIMARY KEY (account, staff, seq)) STRICT;
INSERT INTO meta VALUES ('farebox', 1);
INSERT INTO postings VALUES (3, 7, 19730, 19730, 1, 860, 860), (5, 7, 19730, 19730, 2, 340, -520);
INSERT INTO shares VALUES (3, 1, 860), (5, 1, -520);
INSERT INTO taps VALUES (7, 1, 1, 1704697200, 19730, 25200, 10, 0), (7, 1, 2, 1704699000, 19730, 27000, 12, 1)";

/// All rows of version 2 after the copy.
const COPIED: &str = "meta farebox 2
posting 3 7 19730 19730 1 860 860 0
posting 5 7 19730 19730 2 340 -520 0
share 3 1 860
share 5 1 -520
tap 7 1 1 1704697200 19730 25200 10 0
tap 7 1 2 1704699000 19730 27000 12 1
";

fn number<S: Alter>(conn: &mut Connection<S>, sql: &str) -> Result<i64, Error> {
    conn.query_row(sql, &[])?.get(0)
}

/// A database that is a ledger of version 1.
fn first<R: Abort + AllocGlobal>(rt: &R) -> Connection<MemStore> {
    let mut conn = Connection::open_in_memory(rt.alloc()).expect(rt, "a database");
    conn.execute_batch(FIRST)
        .expect(rt, "a ledger of version 1");
    conn
}

/// It is one of version 1, and is copied then.
fn expect_first<R: Abort + AllocGlobal, S: Alter + Drop>(rt: &R, mut conn: Connection<S>) {
    let version = number(&mut conn, "SELECT version FROM meta");
    let new = number(
        &mut conn,
        "SELECT count(*) FROM sqlite_schema WHERE name IN ('postings2', 'shares2')",
    );
    expect_same(rt, (version, new), (Ok(1), Ok(0)));
    let _ = expect_rows(rt, opened(rt, conn), COPIED);
}

// Where the copy is refused it is one of version 1 as before, and it is copied then.
#[test]
fn copies_all_or_nothing_without_memory(rt: HostRuntime) {
    let conn = first(&rt);
    assert!(rt; conn.is_autocommit());
    tell(&rt, MAY_BE_REFUSED);
    let opening = Ledger::open(rt.alloc(), conn);
    tell(&rt, MAY_NOT_BE);
    match opening {
        Ok(ledger) => {
            let _ = expect_rows(&rt, ledger, COPIED);
        }
        Err((fault, conn)) => {
            expect_by_store(&rt, fault == OpenFault::Store, fault == OpenFault::Memory);
            expect_first(&rt, conn);
        }
    }
}
