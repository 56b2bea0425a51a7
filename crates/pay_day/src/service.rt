ghost use Rattle.std.specs.Prelude.{◌≡◌, ◌+◌, ◌+ℤ◌, ◌≤◌, ◌↔◌, pos, IsOk, IfOk, IfErr};
ghost use Rattle.jiff.specs.declared.tz.timezone.TimeZone.{TimeZone};
ghost use Rattle.pay_day.specs.Day.{IsInstant, offset_of, local_seconds, stamp_of};
ghost use Rattle.pay_day.specs.declared.limits.TheConstants.{FIRST_INSTANT, LAST_INSTANT, MOST_OFFSET};

use crate::Moment;
use crate::limits::{FIRST_INSTANT, LAST_INSTANT, SECONDS_PER_DAY, SERVICE_DAY_START};
use jiff::Timestamp;
use jiff::tz::{Offset, TimeZone};
use thiserror::Error;

/// Why an instant has no stamp.
#[derive(Clone, Copy, Debug, PartialEq, Eq, Error)]
pub enum StampFault {
    /// Refusal 1: the instant is before 1970-01-08 00:00:00 UTC or after 2099-12-31 23:59:59 UTC.
    #[error("1 OutOfTime")]
    OutOfTime,
    /// Refusal 90: no memory. No zone takes any, so this is never given.
    #[error("90 Memory")]
    Memory,
}

/// Seconds from 1970-01-01 00:00:00 to what a clock so far from UTC shows. No zone's is further than 25:59:59.
fn local_clock(utc: u64, offset: Offset) -> u64
    requires { IsInstant utc }
    ensures value { pos result ≡ pos utc +ℤ offset.seconds }
    ensures not_far_before { FIRST_INSTANT ≤ result + MOST_OFFSET }
    ensures not_far_after { result ≤ LAST_INSTANT + MOST_OFFSET }
{
    (utc as i64 + offset.seconds() as i64) as u64
}

/// An instant with its service day and its local second, by what the zone's clock shows.
#[tactic(auto, unfolding(crate::specs::Day::service_day, crate::specs::Day::local_date, crate::specs::Day::local_second))]
fn moment_of(utc: u64, local: u64) -> Moment
    requires instant { IsInstant utc }
    requires not_far_before { FIRST_INSTANT ≤ local + MOST_OFFSET }
    requires not_far_after { local ≤ LAST_INSTANT + MOST_OFFSET }
    ensures { (zone : TimeZone) → pos local ≡ local_seconds zone utc → result ≡ stamp_of zone utc }
{
    let date = local / u64::from(SECONDS_PER_DAY);
    let second = local % u64::from(SECONDS_PER_DAY);
    let day = if second < u64::from(SERVICE_DAY_START) {
        date - 1
    } else {
        date
    };
    Moment::new(utc, day as u32, second as u32)
}

/// The instant with its service day and its local second in a zone whose clock then is so far from UTC.
pub fn stamp_at(utc: u64, offset: Offset) -> Moment
    requires { IsInstant utc }
    ensures { (zone : TimeZone) → offset_of zone utc ≡ offset.seconds → result ≡ stamp_of zone utc }
{
    moment_of(utc, local_clock(utc, offset))
}

/// The instant with its service day and its local second in the zone, for `utc` seconds of the Unix
/// clock. A service day lasts from 04:30 to 04:30 by the zone's clock, and has the date on which it
/// begins.
pub fn stamp(zone: &TimeZone<'_>, utc: u64) -> Result<Moment, StampFault>
    ensures taken { IsOk result ↔ IsInstant utc }
    ensures value { IfOk result (λ m. m ≡ stamp_of zone.now utc) }
    ensures refused { IfErr result (λ e. e ≡ StampFault.OutOfTime) }
{
    if utc < FIRST_INSTANT || utc > LAST_INSTANT {
        return Err(StampFault::OutOfTime);
    }
    let Ok(instant) = Timestamp::from_second(utc as i64) else {
        unreachable!()
    };
    Ok(stamp_at(utc, zone.to_offset(instant)))
}
