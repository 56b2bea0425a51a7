ghost use Rattle.std.specs.Prelude.{◌≡◌, ◌≤◌, ◌↔◌, IsSome, IfSome};
ghost use Rattle.pay_day.specs.Words.{IsDay};
ghost use Rattle.pay_rules.specs.declared.limits.TheConstants.{MOST_CREDIT};
ghost use Rattle.pay_rules.specs.Credits.{CreditOf, IsCredit};

use crate::limits::MOST_CREDIT;
use pay_day::limits::{FIRST_DAY, LAST_DAY};
use pay_money::Pence;
use std::marker::Model;

/// Money that is given back for a service day.
#[derive(Clone, Copy, Debug, PartialEq, Eq)]
pub struct Credit {
    day: u32,
    // A credit fits into 32 bits, and each correction has room for one.
    pence: u32,
}

impl Model for Credit {
    ghost use Rattle.pay_rules.specs.Credits.{CreditOf, IsCredit};

    ghost Value = { CreditOf };

    ghost view = { λ c. record { day = c.day; pence = c.pence } };

    ghost invariant = { λ c. IsCredit (record { day = c.day; pence = c.pence }) };

    ghost inverse = { λ c. record { day = c.day; pence = c.pence } };
}

impl Credit {
    /// A credit of these numbers, if each is in its range: `day`, counted from 1970-01-01, from 4 to
    /// 50,000, and `pence` from 1 to 100,000.
    pub fn from_parts(day: u32, pence: u32) -> Option<Credit>
        ensures in_range { IsSome result ↔ IsCredit (record { day = day; pence = pence }) }
        ensures parts { IfSome result (λ c. c ≡ record { day = day; pence = pence }) }
    {
        let is_day = FIRST_DAY <= day && day <= LAST_DAY;
        if is_day && 1 <= pence && pence <= MOST_CREDIT {
            Some(Credit { day, pence })
        } else {
            None
        }
    }

    /// The service day, counted from 1970-01-01.
    pub fn day(self) -> u32
        ensures value { result ≡ self.day }
        ensures in_range { IsDay result }
    {
        self.day
    }

    /// The money.
    pub fn pence(self) -> Pence
        ensures value { result ≡ self.pence }
        ensures in_range { result ≤ MOST_CREDIT }
    {
        Pence::new(u64::from(self.pence))
    }
}
