//! A service day for which staff ask.
ghost use Rattle.std.specs.Prelude.{◌≡◌, ◌≤◌};
ghost use Rattle.pay_day.specs.declared.limits.TheConstants.{FIRST_DAY, LAST_DAY};

use std::marker::Model;

/// A service day, counted from 1970-01-01.
#[derive(Drop)]
pub struct Day {
    number: u32,
}

impl Model for Day {
    ghost use Rattle.std.specs.Prelude.{ℕ, ◌≤◌};
    ghost use Rattle.pay_day.specs.declared.limits.TheConstants.{FIRST_DAY, LAST_DAY};

    ghost Value = { ℕ };

    ghost view = { λ d. d.number };

    ghost invariant = { λ d. (FIRST_DAY ≤ d.number) × (d.number ≤ LAST_DAY) };
}

impl Day {
    /// The day of this number.
    pub fn new(number: u32) -> Day
        requires { (FIRST_DAY ≤ number) × (number ≤ LAST_DAY) }
        ensures { result ≡ number }
    {
        Day { number }
    }

    /// Its number.
    pub fn number(&self) -> u32
        ensures value { result ≡ self.now }
        ensures in_range { (FIRST_DAY ≤ result) × (result ≤ LAST_DAY) }
    {
        self.number
    }
}
