//! The date of a service day, as a field of a line.
use pay_dates::DatedDay;
use pay_day::limits::{FIRST_DAY, LAST_DAY};
use std::fmt;

/// A service day by its date alone, printed as `2024-01-08`; a number that is none as it is.
#[derive(Clone, Copy)]
pub(crate) struct CalendarDate(pub u32);

impl fmt::Display for CalendarDate {
    fn fmt<W: fmt::Write>(&self, f: &mut fmt::Formatter<W>) -> fmt::Result {
        let day = self.0;
        if day < FIRST_DAY || day > LAST_DAY {
            return write!(f, "{day}");
        }
        let date = DatedDay::of(day).date;
        write!(f, "{date}")
    }
}
