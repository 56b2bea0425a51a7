//! Years on a clock at UTC.
ghost use Rattle.std.specs.Prelude.{◌≡◌, ◌<◌, ◌^◌};
ghost use Rattle.jiff_core.specs.Calendar.{IsYear};
ghost use Rattle.pay_zone.specs.Steady.{year_at};

use jiff::Timestamp;
use jiff::civil::Date;
use jiff::tz::TimeZone;

/// The year of an instant, in seconds of the Unix clock.
pub(crate) fn year_of(utc: u64) -> i16
    requires { utc < 2 ^ 33 }
    ensures value { result ≡ year_at utc }
    ensures in_range { IsYear result }
{
    let Ok(instant) = Timestamp::from_second(utc as i64) else {
        unreachable!()
    };
    TimeZone::UTC.to_datetime(instant).date().year()
}

/// The first instant of the next year, in seconds of the Unix clock, if there is one.
pub(crate) fn next_year(utc: u64) -> Option<u64>
    requires { utc < 2 ^ 33 }
{
    let date = Date::new(year_of(utc).checked_add(1)?, 1, 1).ok()?;
    let zoned = date.to_zoned(TimeZone::UTC).ok()?;
    u64::try_from(zoned.timestamp().as_second()).ok()
}
