//! What ties the definitions of the local date and the local second to the calendar.
ghost use Rattle.std.specs.Prelude.{◌≡◌, ◌+◌, ◌*◌};
ghost use Rattle.jiff.specs.Words.{epoch_day};
ghost use Rattle.pay_day.specs.Day.{IsInstant, local_date, local_second};

use jiff::Timestamp;
use jiff::civil::DateTime;
use jiff::tz::TimeZone;

/// The date and the time of day that the zone's clock shows at the instant: the date is the local
/// date, and the time is the local second in hours, minutes and seconds.
pub fn shown(zone: &TimeZone<'_>, utc: u64) -> DateTime
    requires { IsInstant utc }
    ensures date { epoch_day result.date ≡ local_date zone.now utc }
    ensures time { result.time.hour * 3_600 + result.time.minute * 60 + result.time.second
        ≡ local_second zone.now utc }
{
    let Ok(instant) = Timestamp::from_second(utc as i64) else {
        unreachable!()
    };
    zone.to_datetime(instant)
}
