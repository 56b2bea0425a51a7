//! Days and weeks as they are called.
ghost use Rattle.std.specs.Prelude.{◌≡◌};
ghost use Rattle.pay_page.specs.Headings.{weekday_name};

use pay_dates::{DatedDay, DatedWeek};
use std::fmt;

/// A service day with the day of the week, printed as `Monday, day 19730, 2024-01-08`.
#[derive(Clone, Copy)]
pub struct NamedDay(pub DatedDay);

/// Whose day it is: `Account 7, Monday, day 19730, 2024-01-08`.
#[derive(Clone, Copy)]
pub struct DayTitle {
    /// The account.
    pub account: u32,
    /// The service day.
    pub day: DatedDay,
}

/// Whose week it is: `Account 7, week from day 19730, 2024-01-08, through day 19735, 2024-01-13`.
#[derive(Clone, Copy)]
pub struct WeekTitle {
    /// The account.
    pub account: u32,
    /// The days of the week from Monday through another.
    pub week: DatedWeek,
}

/// The name of a day of the week. Days are counted from 1970-01-01, a Thursday.
fn weekday_name(day: u32) -> &'static str
    ensures { result.now ≡ weekday_name day }
{
    match (u64::from(day) + 3) % 7 {
        0 => "Monday",
        1 => "Tuesday",
        2 => "Wednesday",
        3 => "Thursday",
        4 => "Friday",
        5 => "Saturday",
        _ => "Sunday",
    }
}

impl fmt::Display for NamedDay {
    ghost use Rattle.std.specs.Prelude.{Some};
    ghost use Rattle.pay_page.specs.Headings.{named_day};

    ghost output = { λ it. Some (named_day it.0.day) };

    fn fmt<W: fmt::Write>(&self, f: &mut fmt::Formatter<W>) -> fmt::Result {
        let day = self.0;
        let name = weekday_name(day.day);
        write!(f, "{name}, {day}")
    }
}

impl fmt::Display for DayTitle {
    ghost use Rattle.std.specs.Prelude.{Some};
    ghost use Rattle.pay_page.specs.Headings.{day_title};

    ghost output = { λ it. Some (day_title it.account it.day.day) };

    fn fmt<W: fmt::Write>(&self, f: &mut fmt::Formatter<W>) -> fmt::Result {
        let account = self.account;
        let day = NamedDay(self.day);
        write!(f, "Account {account}, {day}")
    }
}

impl fmt::Display for WeekTitle {
    ghost use Rattle.std.specs.Prelude.{Some};
    ghost use Rattle.pay_page.specs.Headings.{week_title};

    ghost output = { λ it. Some (week_title it.account it.week.from.day it.week.through.day) };

    fn fmt<W: fmt::Write>(&self, f: &mut fmt::Formatter<W>) -> fmt::Result {
        let (account, week) = (self.account, self.week);
        write!(f, "Account {account}, {week}")
    }
}
