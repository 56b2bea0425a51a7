ghost use Rattle.std.specs.Prelude.{◌≡◌, ◌<◌, ◌≤◌, ◌↔◌, IsSome, IfSome};
ghost use Rattle.pay_day.specs.Day.{Stamp, IsStamp, IsInstant, IsDay};
ghost use Rattle.pay_day.specs.declared.limits.TheConstants.{SECONDS_PER_DAY};

use crate::limits::{FIRST_DAY, FIRST_INSTANT, LAST_DAY, LAST_INSTANT, SECONDS_PER_DAY};
use std::marker::Model;

/// An instant and where it falls: seconds of the Unix clock, the service day (counted from
/// 1970-01-01), and the local second of the day.
#[derive(Clone, Copy, Debug, PartialEq, Eq)]
pub struct Moment {
    // Instants fit into 32 bits, and each stored tap has one.
    utc: u32,
    day: u32,
    second: u32,
}

impl Model for Moment {
    ghost use Rattle.pay_day.specs.Day.{Stamp, IsStamp};

    ghost Value = { Stamp };

    ghost view = { λ m. record { utc = m.utc; day = m.day; second = m.second } };

    ghost invariant = { λ m. IsStamp (record { utc = m.utc; day = m.day; second = m.second }) };

    ghost inverse = { λ s. record { utc = s.utc; day = s.day; second = s.second } };
}

impl Moment {
    pub(crate) fn new(utc: u64, day: u32, second: u32) -> Moment
        requires { IsStamp (record { utc = utc; day = day; second = second }) }
        ensures { result ≡ record { utc = utc; day = day; second = second } }
    {
        Moment {
            utc: utc as u32,
            day,
            second,
        }
    }

    /// A moment of these numbers, if each is in its range: `utc` from 604,800 to 4,102,444,799, `day`
    /// from 4 to 50,000, and `second` below 86,400. Nothing else is tested: no zone is asked.
    pub fn from_parts(utc: u64, day: u32, second: u32) -> Option<Moment>
        ensures in_range { IsSome result ↔ IsStamp (record { utc = utc; day = day; second = second }) }
        ensures parts { IfSome result (λ m. m ≡ record { utc = utc; day = day; second = second }) }
    {
        let is_instant = FIRST_INSTANT <= utc && utc <= LAST_INSTANT;
        let is_day = FIRST_DAY <= day && day <= LAST_DAY;
        if is_instant && is_day && second < SECONDS_PER_DAY {
            Some(Moment::new(utc, day, second))
        } else {
            None
        }
    }

    /// Seconds of the Unix clock.
    pub fn utc(self) -> u64
        ensures value { result ≡ self.utc }
        ensures in_range { IsInstant result }
    {
        u64::from(self.utc)
    }

    /// The service day, counted from 1970-01-01.
    pub fn day(self) -> u32
        ensures value { result ≡ self.day }
        ensures in_range { IsDay result }
    {
        self.day
    }

    /// The local second of the day.
    pub fn second(self) -> u32
        ensures value { result ≡ self.second }
        ensures in_range { result < SECONDS_PER_DAY }
    {
        self.second
    }
}
