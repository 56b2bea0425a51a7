//! How many stored taps an account that is kept reads for a command, where it has many: at most 64, and four for each
//! tap that the command disturbs, by hand. By the sample fare file.

ghost use Rattle.pay_book.specs.Stored.{IsConsistent};

use crate::accounts::empty_account;
use crate::given::{expect_same, sample};
use pay_book::Book;
use pay_day::Moment;
use pay_rules::{Fares, Fix, Kind, Tap, What};
use pay_shard::Asked;
use pay_tables::Editions;
use std::process::Abort;

/// Sends what is asked of an account, and answers whether it is not refused.
fn is_taken<F: Fares>(account: &mut F, editions: &Editions, asked: &Asked) -> bool
    requires { F.IsPricedBy editions.now account.old }
    ensures { F.IsPricedBy editions.now account.new }
{
    let number = account.number();
    match asked {
        Asked::Tap(tap) => {
            let own = Tap {
                account: number,
                ..*tap
            };
            account.tap(editions, own).is_ok()
        }
        Asked::Fix(fix) => {
            let own = Fix {
                account: number,
                ..*fix
            };
            account.fix(editions, own).is_ok()
        }
        _ => false,
    }
}

/// Sends all, of which none may be refused.
fn take_all<R: Abort>(rt: &R, book: &mut Book, editions: &Editions, all: &[Asked])
    requires { IsConsistent editions.now book.old }
    ensures { IsConsistent editions.now book.new }
{
    for asked in all {
        expect_same(rt, is_taken(book, editions, asked), true);
    }
}

/// Monday, 2024-01-08, 07:00 in London.
const SEVEN: u32 = 1_704_697_200;

/// A moment by London's winter time.
fn moment<R: Abort>(rt: &R, utc: u32) -> Moment {
    let day = utc.saturating_sub(16_200) / 86_400;
    Moment::from_parts(u64::from(utc), day, utc % 86_400).expect(rt, "a moment")
}

/// A tap by reader 1.
fn tap<R: Abort>(rt: &R, seq: u32, utc: u32, place: u16, kind: Kind) -> Asked {
    Asked::Tap(Tap {
        account: 7,
        reader: 1,
        seq,
        stamp: moment(rt, utc),
        place,
        kind,
    })
}

/// A correction by staff 3.
fn fix(seq: u32, what: What) -> Asked {
    Asked::Fix(Fix {
        account: 7,
        staff: 3,
        seq,
        what,
    })
}

/// So many boardings, so many seconds one after another.
fn boardings<R: Abort + AllocGlobal>(rt: &R, count: u32, apart: u32) -> Vec<Asked> {
    let mut all = Vec::new(rt.alloc());
    for number in 0..count {
        let utc = SEVEN.saturating_add(number.saturating_mul(apart));
        all.push(tap(rt, number, utc, 50, Kind::Bus))
            .expect(rt, "memory");
    }
    all
}

/// So many journeys from 10 to 12, two hours one after another.
fn rides<R: Abort + AllocGlobal>(rt: &R, count: u32) -> Vec<Asked> {
    let mut all = Vec::new(rt.alloc());
    for number in 0..count {
        let (seq, utc) = (
            number.saturating_mul(2),
            number.saturating_mul(7_200).saturating_add(SEVEN),
        );
        all.push(tap(rt, seq, utc, 10, Kind::In))
            .expect(rt, "memory");
        let (seq, utc) = (seq.saturating_add(1), utc.saturating_add(1_200));
        all.push(tap(rt, seq, utc, 12, Kind::Out))
            .expect(rt, "memory");
    }
    all
}

/// Sends each of these, for which so many taps are read at least, and so many at most.
fn expect_each_read<R: Abort>(
    rt: &R,
    book: &mut Book,
    editions: &Editions,
    late: &[(Asked, u64, u64)],
)
    requires { IsConsistent editions.now book.old }
    ensures { IsConsistent editions.now book.new }
{
    for one in late {
        expect_same(rt, is_taken(book, editions, &one.0), true);
        let read = book.steps();
        let (least, most) = (one.1, one.2);
        expect_same(rt, (read, least <= read, read <= most), (read, true, true));
    }
}

/// Sends all to an account that has none, and then each of those that come late.
fn expect_read<R: Abort + AllocGlobal>(rt: &R, all: &[Asked], late: &[(Asked, u64, u64)]) {
    let editions = sample(rt);
    let mut book: Book = empty_account(rt, &editions);
    take_all(rt, &mut book, &editions, all);
    expect_each_read(rt, &mut book, &editions, late);
}

// A first boarding has none to read, one after it reads the last that paid, and a repeat reads none.
#[test]
fn few_where_there_are_few(rt: HostRuntime) {
    let first = tap(&rt, 1, SEVEN, 50, Kind::Bus);
    let second = tap(&rt, 2, SEVEN + 600, 50, Kind::Bus);
    let again = tap(&rt, 1, SEVEN, 50, Kind::Bus);
    expect_read(&rt, &[], &[(first, 0, 0), (second, 1, 1), (again, 0, 0)]);
}

// The tap ends a leg earlier, so that it parts one journey of two taps into one of two and one of one.
#[test]
fn one_among_eight_thousand_rides(rt: HostRuntime) {
    let all = rides(&rt, 8_000);
    let late = tap(&rt, 16_000, SEVEN + 7_200 * 4_000 + 600, 11, Kind::Out);
    let void = fix(1, What::Void(1, 16_000));
    expect_read(&rt, &all, &[(late, 1, 64 + 4 * 5), (void, 1, 64 + 4 * 5)]);
}

// With the tap before all of them each boarding pays that was free, and is free that paid, so that each is read.
#[test]
fn one_before_all_that_there_may_be(rt: HostRuntime) {
    let all = boardings(&rt, 16_383, 3_000);
    let late = tap(&rt, 16_383, SEVEN - 1_000, 50, Kind::Bus);
    let again = tap(&rt, 16_383, SEVEN - 1_000, 50, Kind::Bus);
    let (least, most) = (16_383, 64 + 4 * 16_383);
    expect_read(&rt, &all, &[(late, least, most), (again, 0, 64)]);
}
