//! Service days and weeks with their dates.
ghost use Rattle.std.specs.Prelude.{◌≡◌, pos};
ghost use Rattle.jiff.specs.Words.{epoch_day};
ghost use Rattle.pay_day.specs.Words.{IsDay};

use jiff::civil::Date;
use std::fmt;

/// A service day and its date, printed as `day 19730, 2024-01-08`.
#[derive(Clone, Copy)]
pub struct DatedDay {
    /// The day, counted from 1970-01-01.
    pub day: u32,
    /// The same on the calendar.
    pub date: Date,
    pub ghost same: { epoch_day date ≡ pos day },
}

impl DatedDay {
    /// A service day with its date.
    pub fn of(day: u32) -> DatedDay
        requires { IsDay day }
        ensures { result.day ≡ day }
    {
        let Ok(date) = jiff_core::civil::Date::from_unix_epoch_day(i64::from(day)) else {
            unreachable!()
        };
        DatedDay {
            day,
            date: Date::from_plain(date),
        }
    }
}

impl fmt::Display for DatedDay {
    ghost use Rattle.std.specs.Prelude.{Some};
    ghost use Rattle.pay_dates.specs.Dates.{dated_text};

    ghost output = { λ it. Some (dated_text it.day) };

    #[tactic(auto, unfolding(crate::specs::Dates::dated_text))]
    fn fmt<W: fmt::Write>(&self, f: &mut fmt::Formatter<W>) -> fmt::Result {
        let (day, date) = (self.day, CalendarDay(*self));
        write!(f, "day {day}, {date}")
    }
}

/// A service day by its date alone, printed as `2024-01-08`.
#[derive(Clone, Copy)]
pub struct CalendarDay(pub DatedDay);

impl fmt::Display for CalendarDay {
    ghost use Rattle.std.specs.Prelude.{Some};
    ghost use Rattle.pay_dates.specs.Calendar.{date_text_of};

    ghost output = { λ it. Some (date_text_of it.0.day) };

    fn fmt<W: fmt::Write>(&self, f: &mut fmt::Formatter<W>) -> fmt::Result {
        let date = self.0.date;
        write!(f, "{date}")
    }
}

/// A week from its Monday through a day, printed as `week from day 19730, 2024-01-08, through day 19735, 2024-01-13`.
#[derive(Clone, Copy)]
pub struct DatedWeek {
    /// The Monday.
    pub from: DatedDay,
    /// The last day that counts.
    pub through: DatedDay,
}

impl fmt::Display for DatedWeek {
    ghost use Rattle.std.specs.Prelude.{Some};
    ghost use Rattle.pay_dates.specs.Dates.{dated_week_text};

    ghost output = { λ it. Some (dated_week_text it.from.day it.through.day) };

    #[tactic(auto, unfolding(crate::specs::Dates::dated_week_text))]
    fn fmt<W: fmt::Write>(&self, f: &mut fmt::Formatter<W>) -> fmt::Result {
        let (from, through) = (self.from, self.through);
        write!(f, "week from {from}, through {through}")
    }
}
