//! Stretches of time in which a zone keeps its offset.
ghost use Rattle.std.specs.Prelude.{◌≡◌, ◌<◌, ◌≤◌, ◌^◌, ◌↔◌, IsTrue, IfSome, OnErr};
ghost use Rattle.pay_day.specs.declared.limits.TheConstants.{LAST_INSTANT};
ghost use Rattle.pay_zone.specs.Steady.{IsKeptInYear, IsSteady};

use crate::year::{next_year, year_of};
use jiff::Timestamp;
use jiff::tz::{Offset, TimeZone};
use pay_day::limits::LAST_INSTANT;

/// A stretch of time in which a zone keeps its offset, in seconds of the Unix clock: from the first, and before the second.
#[derive(Clone, Copy)]
pub(crate) struct Stretch {
    pub(crate) from: u64,
    pub(crate) until: u64,
    pub(crate) offset: Offset,
}

impl Stretch {
    /// Whether an instant is of it.
    pub(crate) fn has(&self, utc: u64) -> bool
        ensures { IsTrue result ↔ (self.now.from ≤ utc) × (utc < self.now.until) }
    {
        self.from <= utc && utc < self.until
    }
}

/// The instant of the zone's first change after this one, in seconds of the Unix clock, if the zone is by a rule that has one.
fn next_change(zone: &TimeZone<'_>, from: u64) -> Option<u64>
    requires { from < 2 ^ 33 }
    ensures { IfSome result (IsKeptInYear zone.now from) }
{
    let jiff_tz::TimeZone::Posix(_) = zone.to_plain() else {
        return None;
    };
    let Ok(instant) = Timestamp::from_second(from as i64) else {
        unreachable!()
    };
    let change = zone.following(instant).next()?;
    match u64::try_from(change.timestamp().as_second()) {
        Ok(second) => Some(second),
        Err(_) => None,
    }
}

/// The stretch from this instant on, to the zone's next change or the end of the year.
pub(crate) fn stretch_from(zone: &TimeZone<'_>, from: u64) -> Option<Stretch>
    requires { from ≤ LAST_INSTANT }
    ensures steady { IfSome result (λ s. IsSteady zone.now s.from s.until s.offset.seconds) }
    ensures from { IfSome result (λ s. s.from ≡ from) }
    ensures goes_on { IfSome result (λ s. from < s.until) }
{
    let until = next_change(zone, from)?.min(next_year(from)?);
    let until = until.min(LAST_INSTANT + 1);
    if until <= from || year_of(until - 1) != year_of(from) {
        return None;
    }
    let Ok(instant) = Timestamp::from_second(from as i64) else {
        unreachable!()
    };
    Some(Stretch {
        from,
        until,
        offset: zone.to_offset(instant),
    })
}
