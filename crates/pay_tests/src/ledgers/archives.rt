//! Archives as full as they may be, and one more of each: what is read of them, and what is restored. By the sample fare file, whose
//! route is 50.

use crate::given::{expect_list, expect_same, sample};
use crate::ledgers::ledger::{empty_ledger, opened};
use pay_book::Book;
use pay_ledger::{Ledger, LedgerFault};
use pay_records::*;
use pay_rows::{FixRow, PostingRow, ShareRow, TapRow};
use pay_rules::{Fares, PostFault};
use sqlite::{Alter, Error, Transaction};
use std::process::Abort;

/// How many taps and corrections an account may have.
const MOST_TAPS: u32 = 16_384;

const MOST_FIXES: u32 = 1_024;

/// A boarding at seven on the Monday.
const BOARDED: TapRow = TapRow {
    reader: 1,
    seq: 0,
    utc: 1_704_697_200,
    day: 19_730,
    second: 25_200,
    place: 50,
    kind: 2,
};

/// A Void of a tap that there is not.
const VOIDED: FixRow = FixRow {
    staff: 3,
    seq: 0,
    what: 0,
    a: 9,
    b: 9,
    c: 0,
    d: 0,
    e: 0,
};

/// Archives so many taps and corrections of account 7, and a tap of account 8. The taps are three seconds one after another.
fn archive<S: Alter>(tx: &mut Transaction<'_, S>, taps: u32, fixes: u32) -> Result<(), Error> {
    add_tap(tx, 8, &BOARDED)?;
    for seq in 0..taps {
        let later = 3 * i64::from(seq);
        let row = TapRow {
            seq: i64::from(seq),
            utc: 1_704_697_200 + later,
            second: 25_200 + later,
            ..BOARDED
        };
        add_tap(tx, 7, &row)?;
    }
    for seq in 0..fixes {
        let row = FixRow {
            seq: i64::from(seq),
            ..VOIDED
        };
        add_fix(tx, 7, &row)?;
    }
    Ok(())
}

/// What an empty ledger restores of so many taps and corrections: the number of each account, and how many of both it has accepted.
fn restored<R: Abort + AllocGlobal, S: Alter + Drop>(
    rt: &R,
    ledger: Ledger<S>,
    taps: u32,
    fixes: u32,
) -> Result<Vec<(u32, usize, usize)>, LedgerFault> {
    let mut conn = ledger.into_connection();
    let mut tx = conn.transaction();
    archive(&mut tx, taps, fixes).expect(rt, "rows");
    tx.commit().expect(rt, "a commit");
    let accounts: Vec<Book> = opened(rt, conn).restore(&sample(rt))?;
    let mut counts = Vec::new(rt.alloc());
    for account in &accounts {
        let sets = account.sets().expect(rt, "memory");
        let count = (account.number(), sets.taps().len(), sets.fixes().len());
        counts.push(count).expect(rt, "memory");
    }
    Ok(counts)
}

const BAD: LedgerFault = LedgerFault::Refused(PostFault::BadArchive);

#[test]
fn restores_no_fuller_account(rt: HostRuntime) {
    let full = (7, MOST_TAPS as usize, MOST_FIXES as usize);
    let archive = restored(&rt, empty_ledger(&rt), MOST_TAPS, MOST_FIXES);
    expect_list(&rt, archive, Ok(&[full, (8, 1, 0)]));
    let taps = restored(&rt, empty_ledger(&rt), MOST_TAPS + 1, 0);
    expect_list(&rt, taps, Err(BAD));
    let fixes = restored(&rt, empty_ledger(&rt), 0, MOST_FIXES + 1);
    expect_list(&rt, fixes, Err(BAD));
}

/// Adds so many rows of account 7 to each table.
fn add_rows<S: Alter>(tx: &mut Transaction<'_, S>, count: u32) -> Result<(), Error> {
    for seq in 0..count {
        let row = PostingRow {
            week: 19_730,
            through: 19_730,
            version: i64::from(seq),
            due: 0,
            amount: 0,
            edition: 4,
        };
        let share = ShareRow {
            posting: add_posting(tx, 7, &row)?,
            operator: 4,
            amount: 1,
        };
        add_share(tx, &share)?;
    }
    archive(tx, count, count)
}

// There are more postings of an account than it has taps, where days are closed again and again.
#[test]
fn reads_more_rows_than_an_account_has_taps(rt: HostRuntime) {
    expect_rows_read(&rt, empty_ledger(&rt));
}

/// One more posting, share, tap and correction than an account has taps is read of an empty ledger.
fn expect_rows_read<R: Abort + AllocGlobal, S: Alter + Drop>(rt: &R, ledger: Ledger<S>) {
    let mut conn = ledger.into_connection();
    let mut tx = conn.transaction();
    let count = MOST_TAPS as usize + 1;
    add_rows(&mut tx, MOST_TAPS + 1).expect(rt, "rows");
    let postings = postings_of(rt.alloc(), &mut tx, 7).expect(rt, "postings");
    let shares = shares_of(rt.alloc(), &mut tx, 7).expect(rt, "shares");
    expect_same(rt, (postings.len(), shares.len()), (count, count));
    let taps = taps_of(rt.alloc(), &mut tx, 7).expect(rt, "taps");
    let fixes = fixes_of(rt.alloc(), &mut tx, 7).expect(rt, "corrections");
    expect_same(rt, (taps.len(), fixes.len()), (count, count));
    let taps = all_taps(rt.alloc(), &mut tx).expect(rt, "all taps");
    let fixes = all_fixes(rt.alloc(), &mut tx).expect(rt, "all corrections");
    expect_same(rt, (taps.len(), fixes.len()), (count + 1, count));
}
