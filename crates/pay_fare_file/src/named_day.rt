//! How a service day is called.
use pay_dates::DatedDay;
use pay_day::limits::{FIRST_DAY, LAST_DAY};
use std::fmt;

/// A service day, printed as `day 19730, 2024-01-08`; a number that is none as `day 3`.
#[derive(Clone, Copy)]
pub struct NamedDay(pub u32);

impl fmt::Display for NamedDay {
    ghost use Rattle.std.specs.Prelude.{Some};
    ghost use Rattle.pay_fare_file.specs.Printed.{named_day};

    ghost output = { λ it. Some (named_day it.0) };

    #[tactic(auto, unfolding(crate::specs::Printed::named_day))]
    fn fmt<W: fmt::Write>(&self, f: &mut fmt::Formatter<W>) -> fmt::Result {
        let day = self.0;
        if day < FIRST_DAY || day > LAST_DAY {
            return write!(f, "day {day}");
        }
        let dated = DatedDay::of(day);
        write!(f, "{dated}")
    }
}
