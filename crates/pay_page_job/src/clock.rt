//! The instant of a tap that is added, by the clock of a zone.
ghost use Rattle.std.specs.Prelude.{IfSome};
ghost use Rattle.pay_page_job.specs.Corrected.{IsInstantIn, IsStampedAt};

use jiff::tz::TimeZone;
use pay_day::limits::{SECONDS_PER_DAY, SERVICE_DAY_START};
use pay_day::stamp;
use pay_jobs::read_zone;

/// An instant of a service day, counted from 1970-01-01, at which the clock of a zone, a POSIX rule, shows this second of a day. Where the
/// clock shows it twice, one of the two; where it never does, none.
pub(crate) fn instant_by_text(zone: &str, day: u32, second: u32) -> Option<u64>
    ensures { IfSome result (IsInstantIn zone.now day second) }
{
    let zone = read_zone(zone).ok()?;
    instant_in(&zone, day, second)
}

/// The same by a zone.
fn instant_in(zone: &TimeZone<'_>, day: u32, second: u32) -> Option<u64>
    ensures { IfSome result (IsStampedAt zone.now day second) }
{
    let date = if second < SERVICE_DAY_START {
        day.checked_add(1)?
    } else {
        day
    };
    let shown = u64::from(date)
        .checked_mul(u64::from(SECONDS_PER_DAY))?
        .checked_add(u64::from(second))?;
    let first = nearer(zone, shown, shown)?;
    match if_stamped(zone, day, second, first) {
        Some(utc) => Some(utc),
        None => if_stamped(zone, day, second, nearer(zone, shown, first)?),
    }
}

/// An instant nearer to the one at which the clock shows what it has to show: by how much it is ahead at this one.
fn nearer(zone: &TimeZone<'_>, shown: u64, at: u64) -> Option<u64> {
    let moment = stamp(zone, at).ok()?;
    let date = if moment.second() < SERVICE_DAY_START {
        u64::from(moment.day()).checked_add(1)?
    } else {
        u64::from(moment.day())
    };
    let local = date
        .checked_mul(u64::from(SECONDS_PER_DAY))?
        .checked_add(u64::from(moment.second()))?;
    at.checked_add(shown)?.checked_sub(local)
}

/// An instant, if it is of this day and second.
fn if_stamped(zone: &TimeZone<'_>, day: u32, second: u32, at: u64) -> Option<u64>
    ensures { IfSome result (IsStampedAt zone.now day second) }
{
    let moment = stamp(zone, at).ok()?;
    if moment.day() == day && moment.second() == second {
        Some(moment.utc())
    } else {
        None
    }
}
