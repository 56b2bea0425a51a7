//! Accounts that are priced from scratch, and those that are kept, by the sample fare file.

ghost use Rattle.std.specs.Prelude.{◌≡◌};

use crate::given::{MONDAY, expect_same};
use pay_money::Pence;
use pay_rules::{Fares, Priced, Shown, Tap};
use pay_tables::Editions;
use std::alloc::AllocError;
use std::process::Abort;

/// Account 7, which has accepted nothing.
pub fn empty_account<R: Abort + AllocGlobal, F: Fares>(rt: &R, editions: &Editions) -> F
    ensures seven { F.account result ≡ 7 }
    ensures priced_by { F.IsPricedBy editions.now result }
{
    F::new(rt.alloc(), 7)
}

/// What an account shows of a service day, at the second time where memory is refused at the first.
pub fn shown<F: Fares>(account: &F, editions: &Editions, day: u32) -> Result<Shown, AllocError>
    requires { F.IsPricedBy editions.now account.now }
{
    match account.show(editions, day) {
        Err(AllocError) => account.show(editions, day),
        shown => shown,
    }
}

/// Sends a tap, and compares the price of the day.
pub fn expect_price<R: Abort, F: Fares>(
    rt: &R,
    account: &mut F,
    editions: &Editions,
    tap: Tap,
    pence: u64,
)
    requires { F.IsPricedBy editions.now account.old }
    ensures same_account { F.account account.new ≡ F.account account.old }
    ensures priced_by { F.IsPricedBy editions.now account.new }
{
    let tap = Tap {
        account: account.number(),
        ..tap
    };
    let priced = Priced {
        again: false,
        day: MONDAY,
        day_price: Pence::new(pence),
        week_price: Pence::new(pence),
    };
    expect_same(rt, account.tap(editions, tap), Ok(priced));
}
