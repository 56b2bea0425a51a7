ghost use Rattle.std.specs.Prelude.{◌≡◌, ◌+◌, ◌%◌, ◌<◌, ◌≤◌};
ghost use Rattle.pay_day.specs.Day.{IsDay, day_of_week, monday, is_in_week_of};
ghost use Rattle.pay_day.specs.declared.limits.TheConstants.{FIRST_DAY, DAYS_PER_WEEK};

use crate::limits::{DAYS_PER_WEEK, FIRST_DAY};

/// The day of the week, from 0 on a Monday to 6 on a Sunday. Days are counted from 1970-01-01, and the
/// first service day is a Monday.
pub fn day_of_week(day: u32) -> u32
    requires { FIRST_DAY ≤ day }
    ensures value { result ≡ day_of_week day }
    ensures in_range { result < DAYS_PER_WEEK }
{
    (day - FIRST_DAY) % DAYS_PER_WEEK
}

/// The Monday of the day's week. Both are counted from 1970-01-01.
pub fn monday(day: u32) -> u32
    requires { FIRST_DAY ≤ day }
    ensures value { result ≡ monday day }
    ensures is_monday { result % DAYS_PER_WEEK ≡ FIRST_DAY }
    ensures not_after { result ≤ day }
    ensures same_week { day < result + DAYS_PER_WEEK }
{
    day - day_of_week(day)
}

/// Whether another day is of a day's week, from its Monday through its Sunday. Both are counted from
/// 1970-01-01.
pub fn is_in_week_of(day: u32, other: u32) -> bool
    requires { IsDay day }
    ensures { result ≡ is_in_week_of day other }
{
    let monday = monday(day);
    (monday..monday + DAYS_PER_WEEK).contains(&other)
}
