//! Accounts restored from the rows of an archive, by the sample fare file, whose route is 50.

use crate::given::{MAY_BE_REFUSED, MAY_NOT_BE, WAS_REFUSED, expect_list, sample, tell};
use pay_book::Book;
use pay_restore::restored;
use pay_rows::{FixRow, TapRow};
use pay_rules::{Fares, PostFault};
use pay_tables::Editions;
use std::alloc::AllocError;
use std::process::Abort;

/// A boarding by reader 1, at seven on the Monday.
const BOARDED: TapRow = TapRow {
    reader: 1,
    seq: 2,
    utc: 1_704_697_200,
    day: 19_730,
    second: 25_200,
    place: 50,
    kind: 2,
};

/// A Void of the boarding by staff 3.
const VOIDED: FixRow = FixRow {
    staff: 3,
    seq: 1,
    what: 0,
    a: 1,
    b: 2,
    c: 0,
    d: 0,
    e: 0,
};

/// A Drop of the Void.
const DROPPED: FixRow = FixRow {
    seq: 2,
    what: 3,
    a: 3,
    b: 1,
    ..VOIDED
};

/// What is restored: the number of each account, and how many taps and corrections it has accepted.
fn counts_of<R: AllocGlobal>(
    rt: &R,
    editions: &Editions,
    taps: &[(i64, TapRow)],
    fixes: &[(i64, FixRow)],
) -> Result<Vec<(u32, usize, usize)>, PostFault> {
    let accounts: Vec<Book> = restored(rt.alloc(), editions, taps, fixes)?;
    let mut counts = Vec::new(rt.alloc());
    for account in &accounts {
        let sets = account.sets()?;
        let count = (account.number(), sets.taps().len(), sets.fixes().len());
        counts.push(count).map_err(AllocError::from)?;
    }
    Ok(counts)
}

/// The same at the second time, where memory is refused at the first.
fn counts<R: Abort + AllocGlobal>(
    rt: &R,
    taps: &[(i64, TapRow)],
    fixes: &[(i64, FixRow)],
) -> Result<Vec<(u32, usize, usize)>, PostFault> {
    let editions = sample(rt);
    tell(rt, MAY_BE_REFUSED);
    let mut found = counts_of(rt, &editions, taps, fixes);
    if matches!(&found, Err(PostFault::Memory)) {
        tell(rt, WAS_REFUSED);
        found = counts_of(rt, &editions, taps, fixes);
    }
    tell(rt, MAY_NOT_BE);
    found
}

// Account 9 has one boarding twice, and account 8 a correction alone.
#[test]
fn accounts_in_ascending_order(rt: HostRuntime) {
    let next = TapRow { seq: 3, ..BOARDED };
    expect_list(
        &rt,
        counts(
            &rt,
            &[(9, BOARDED), (7, next), (9, BOARDED), (7, BOARDED)],
            &[(8, VOIDED), (7, DROPPED), (7, VOIDED)],
        ),
        Ok(&[(7, 2, 2), (8, 0, 1), (9, 1, 0)]),
    );
    expect_list(&rt, counts(&rt, &[], &[]), Ok(&[]));
}
