//! Accounts that are kept, and those that are priced from scratch: late taps and corrections, and memory that runs out midway. By the
//! sample fare file.

ghost use Rattle.std.specs.Prelude.{◌≡◌};
ghost use Rattle.std.specs.List.{AllByRecursion};
ghost use Rattle.pay_book.specs.History.{account_of};

use crate::accounts::{empty_account, shown};
use crate::given::{MAY_BE_REFUSED, MONDAY, WAS_REFUSED, expect_same, sample, tap_at, tell};
use pay_account::*;
use pay_book::{Book, Sent, book_of};
use pay_money::Pence;
use pay_rules::{Fix, Kind, Tap, What};
use pay_tables::Editions;
use std::alloc::AllocError;
use std::process::Abort;

/// So a day has so many journeys and this price.
fn expect_day<R: Abort, F: Fares>(rt: &R, account: &F, editions: &Editions, day: (usize, u64))
    requires { F.IsPricedBy editions.now account.now }
{
    let it = shown(account, editions, MONDAY).expect(rt, "memory");
    expect_same(
        rt,
        (it.lines.as_slice().len(), it.day_price),
        (day.0, Pence::new(day.1)),
    );
}

/// What an account tells of the Monday's price.
fn told(again: bool, pence: u64) -> Priced {
    Priced {
        again,
        day: MONDAY,
        day_price: Pence::new(pence),
        week_price: Pence::new(pence),
    }
}

// What follows asks again if memory runs out once. The account shows then what it showed before.

/// The result of a tap of an account whose Monday has so many journeys and this price before.
fn sent<R: Abort + AllocGlobal, F: Fares>(
    rt: &R,
    account: &mut F,
    editions: &Editions,
    tap: &Tap,
    before: (usize, u64),
) -> Result<Priced, TapFault>
    requires own { tap.now.account ≡ F.account account.old }
    requires priced_by { F.IsPricedBy editions.now account.old }
    ensures same_account { F.account account.new ≡ F.account account.old }
    ensures priced_by { F.IsPricedBy editions.now account.new }
{
    let result = account.tap(editions, *tap);
    if result != Err(TapFault::Memory) {
        return result;
    }
    tell(rt, WAS_REFUSED);
    expect_day(rt, account, editions, before);
    account.tap(editions, *tap)
}

/// The result of a correction of such an account.
fn fixed<R: Abort + AllocGlobal, F: Fares>(
    rt: &R,
    account: &mut F,
    editions: &Editions,
    fix: &Fix,
    before: (usize, u64),
) -> Result<Priced, FixFault>
    requires own { fix.now.account ≡ F.account account.old }
    requires priced_by { F.IsPricedBy editions.now account.old }
    ensures same_account { F.account account.new ≡ F.account account.old }
    ensures priced_by { F.IsPricedBy editions.now account.new }
{
    let result = account.fix(editions, *fix);
    if result != Err(FixFault::Memory) {
        return result;
    }
    tell(rt, WAS_REFUSED);
    expect_day(rt, account, editions, before);
    account.fix(editions, *fix)
}

/// Sends a tap, and compares how many journeys the Monday has and its price, before and after.
fn expect_tap<R: Abort + AllocGlobal, F: Fares>(
    rt: &R,
    account: &mut F,
    editions: &Editions,
    tap: Tap,
    before: (usize, u64),
    after: (usize, u64),
)
    requires { F.IsPricedBy editions.now account.old }
    ensures same_account { F.account account.new ≡ F.account account.old }
    ensures priced_by { F.IsPricedBy editions.now account.new }
{
    let tap = Tap {
        account: account.number(),
        ..tap
    };
    let result = sent(rt, account, editions, &tap, before);
    expect_same(rt, result, Ok(told(false, after.1)));
    expect_day(rt, account, editions, after);
}

/// The same of a correction by staff 3.
fn expect_fix<R: Abort + AllocGlobal, F: Fares>(
    rt: &R,
    account: &mut F,
    editions: &Editions,
    seq: u32,
    what: What,
    before: (usize, u64),
    after: (usize, u64),
)
    requires { F.IsPricedBy editions.now account.old }
    ensures same_account { F.account account.new ≡ F.account account.old }
    ensures priced_by { F.IsPricedBy editions.now account.new }
{
    let fix = Fix {
        account: account.number(),
        staff: 3,
        seq,
        what,
    };
    let result = fixed(rt, account, editions, &fix, before);
    expect_same(rt, result, Ok(told(false, after.1)));
    expect_day(rt, account, editions, after);
}

/// Three boardings, of which a late one makes the next free and the last pay, and a journey from 10 to 12 at 340, which a late
/// touch in cuts off from its beginning: that is then alone, at 860.
fn boardings_and_a_ride<R: Abort + AllocGlobal, F: Fares>(rt: &R, editions: &Editions) {
    let mut account: F = empty_account(rt, editions);
    let bus = tap_at(rt, 1, 28_200, 50, Kind::Bus);
    expect_tap(rt, &mut account, editions, bus, (0, 0), (1, 175));
    let free = tap_at(rt, 2, 30_200, 50, Kind::Bus);
    expect_tap(rt, &mut account, editions, free, (1, 175), (2, 175));
    let late = tap_at(rt, 3, 25_200, 50, Kind::Bus);
    expect_tap(rt, &mut account, editions, late, (2, 175), (3, 350));
    let entry = tap_at(rt, 4, 26_400, 10, Kind::In);
    expect_tap(rt, &mut account, editions, entry, (3, 350), (4, 1_210));
    let exit = tap_at(rt, 5, 27_600, 12, Kind::Out);
    expect_tap(rt, &mut account, editions, exit, (4, 1_210), (4, 690));
    corrections_of_a_ride(rt, &mut account, editions);
}

/// The touch in comes again, and is taken out; the late boarding likewise, and is let in again; and a touch in is filled in.
fn corrections_of_a_ride<R: Abort + AllocGlobal, F: Fares>(
    rt: &R,
    account: &mut F,
    editions: &Editions,
)
    requires { F.IsPricedBy editions.now account.old }
{
    let again = tap_at(rt, 6, 27_000, 10, Kind::In);
    let filled = What::Fill(again.stamp, 10, Kind::In);
    expect_tap(rt, account, editions, again, (4, 690), (5, 1_550));
    expect_fix(
        rt,
        account,
        editions,
        1,
        What::Void(1, 6),
        (5, 1_550),
        (4, 690),
    );
    expect_fix(
        rt,
        account,
        editions,
        2,
        What::Void(1, 3),
        (4, 690),
        (3, 515),
    );
    expect_fix(
        rt,
        account,
        editions,
        3,
        What::Drop(3, 2),
        (3, 515),
        (4, 690),
    );
    expect_fix(rt, account, editions, 4, filled, (4, 690), (5, 1_550));
    expect_fix(
        rt,
        account,
        editions,
        5,
        What::Void(1, 5),
        (5, 1_550),
        (5, 2_070),
    );
}

/// A leg from 14 to 11 at 210, which becomes a run over 12 and 10 at 370 by two late taps: it has a leg from 10 to 11, at 280
/// where it is alone. A tap of it that is taken out and restored changes it and restores it, and another late tap parts it.
fn a_run<R: Abort + AllocGlobal, F: Fares>(rt: &R, editions: &Editions) {
    let mut account: F = empty_account(rt, editions);
    let entry = tap_at(rt, 1, 25_200, 14, Kind::In);
    expect_tap(rt, &mut account, editions, entry, (0, 0), (1, 860));
    let exit = tap_at(rt, 2, 28_200, 11, Kind::Out);
    expect_tap(rt, &mut account, editions, exit, (1, 860), (1, 210));
    let between = tap_at(rt, 3, 26_400, 12, Kind::Out);
    expect_tap(rt, &mut account, editions, between, (1, 210), (2, 1_070));
    let on = tap_at(rt, 4, 27_600, 10, Kind::In);
    let (whole, cut, no_exit) = ((1, 370), (2, 1_140), (2, 1_070));
    expect_tap(rt, &mut account, editions, on, no_exit, whole);
    expect_fix(rt, &mut account, editions, 1, What::Void(1, 3), whole, cut);
    expect_fix(rt, &mut account, editions, 2, What::Drop(3, 1), cut, whole);
    expect_fix(
        rt,
        &mut account,
        editions,
        3,
        What::Void(1, 2),
        whole,
        no_exit,
    );
    expect_fix(
        rt,
        &mut account,
        editions,
        4,
        What::Drop(3, 3),
        no_exit,
        whole,
    );
    let parting = tap_at(rt, 5, 26_700, 13, Kind::In);
    expect_tap(rt, &mut account, editions, parting, (1, 370), (3, 1_350));
}

#[test]
fn boardings_by_late_taps(rt: HostRuntime) {
    let editions = sample(&rt);
    tell(&rt, MAY_BE_REFUSED);
    boardings_and_a_ride::<HostRuntime, Book>(&rt, &editions);
    boardings_and_a_ride::<HostRuntime, Account>(&rt, &editions);
}

#[test]
fn runs_by_late_taps(rt: HostRuntime) {
    let editions = sample(&rt);
    tell(&rt, MAY_BE_REFUSED);
    a_run::<HostRuntime, Book>(&rt, &editions);
    a_run::<HostRuntime, Account>(&rt, &editions);
}

/// The book of account 7 to which these came, compared with one that has one boarding of the Monday, at 175.
fn expect_book<R: Abort + AllocGlobal>(rt: &R, editions: &Editions, sent: [Sent; 3])
    requires { AllByRecursion (λ one. account_of one ≡ 7) sent }
{
    let book = book_of(rt.alloc(), editions, 7, &sent).expect(rt, "memory");
    expect_same(rt, book.number(), 7);
    expect_day(rt, &book, editions, (1, 175));
}

/// A boarding of account 7.
fn boarding<R: Abort>(rt: &R, seq: u32, second: u32) -> Sent
    ensures { account_of result ≡ 7 }
{
    Sent::Tap(Tap {
        account: 7,
        ..tap_at(rt, seq, second, 50, Kind::Bus)
    })
}

/// The Void of its second one.
fn void_of_second() -> Sent
    ensures { account_of result ≡ 7 }
{
    Sent::Fix(Fix {
        account: 7,
        staff: 3,
        seq: 1,
        what: What::Void(1, 2),
    })
}

// Two boardings an hour and more apart, of which one is taken out before it comes.
#[test]
fn a_book_of_what_came(rt: HostRuntime) {
    let editions = sample(&rt);
    expect_book(
        &rt,
        &editions,
        [
            void_of_second(),
            boarding(&rt, 2, 30_200),
            boarding(&rt, 1, 25_200),
        ],
    );
}
