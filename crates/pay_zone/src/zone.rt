ghost use Rattle.std.specs.Prelude.{◌≡◌, ◌↔◌, ◌≤◌, All, IsOk, IfOk, IfErr, IfSome};
ghost use Rattle.pay_day.specs.Words.{IsInstant, offset_of, stamp_of};
ghost use Rattle.pay_day.specs.declared.limits.TheConstants.{FIRST_INSTANT};
ghost use Rattle.pay_zone.specs.Steady.{IsSteady};

use crate::steady::{Stretch, stretch_from};
use jiff::tz::{Offset, TimeZone};
use pay_day::limits::{FIRST_INSTANT, LAST_INSTANT};
use pay_day::{Moment, StampFault, stamp, stamp_at};
use std::alloc::Global;
use std::marker::Model;

/// The most stretches that are kept: three a year are some 390.
const MOST_STRETCHES: u32 = 1_000;

/// A time zone, and the stretches of time in which it keeps its offset. In a contract it is the zone.
#[derive(Drop)]
pub struct Zone<'a> {
    zone: TimeZone<'a>,
    stretches: Vec<Stretch>,
}

impl<'a> Model for Zone<'a> {
    ghost use Rattle.std.specs.Prelude.{All};
    ghost use Rattle.jiff.specs.declared.tz.timezone.TimeZone.{TimeZone};
    ghost use Rattle.pay_zone.specs.Steady.{IsSteady};

    ghost Value = { TimeZone };

    ghost view = { λ z. z.zone };

    ghost invariant = { λ z. All (λ s. IsSteady z.zone s.from s.until s.offset.seconds) z.stretches.items };
}

/// The zone's stretches, as far as there is memory for them.
fn stretches_of(alloc: Global, zone: &TimeZone<'_>) -> Vec<Stretch>
    ensures { All (λ s. IsSteady zone.now s.from s.until s.offset.seconds) result.items }
{
    let mut stretches = Vec::new(alloc);
    let mut from = FIRST_INSTANT;
    for _ in 0..MOST_STRETCHES {
        if from > LAST_INSTANT {
            return stretches;
        }
        let Some(stretch) = stretch_from(zone, from) else {
            return stretches;
        };
        from = stretch.until;
        if stretches.push(stretch).is_err() {
            return stretches;
        }
    }
    stretches
}

impl<'a> Zone<'a> {
    /// The zone, for many instants: its stretches are found first, which takes as long as some thousands of instants by its rules. Where
    /// memory is refused, fewer are kept.
    pub fn new(alloc: Global, zone: TimeZone<'a>) -> Zone<'a>
        ensures { result ≡ zone.entry }
    {
        Zone {
            stretches: stretches_of(alloc, &zone),
            zone,
        }
    }

    /// The zone, for few instants: each of them asks its rules.
    pub fn by_rules(alloc: Global, zone: TimeZone<'a>) -> Zone<'a>
        ensures { result ≡ zone.entry }
    {
        Zone {
            stretches: Vec::new(alloc),
            zone,
        }
    }

    /// Where the stretch of an instant would stand if all were of one length.
    fn guess(&self, utc: u64) -> usize
        requires { FIRST_INSTANT ≤ utc }
    {
        let count = self.stretches.len() as u64;
        let part = (utc - FIRST_INSTANT).saturating_mul(count);
        (part / (LAST_INSTANT + 1 - FIRST_INSTANT)) as usize
    }

    /// The offset at an instant, if the stretch has it that is sought first, or one beside it.
    fn offset(&self, utc: u64) -> Option<Offset>
        requires { FIRST_INSTANT ≤ utc }
        ensures { IfSome result (λ o. offset_of self.now utc ≡ o.seconds) }
    {
        let guess = self.guess(utc);
        for place in guess.saturating_sub(1)..guess.saturating_add(2) {
            if let Some(stretch) = self.stretches.get(place)
                && stretch.has(utc)
            {
                return Some(stretch.offset);
            }
        }
        None
    }

    /// The instant with its service day and its local second in the zone, as [`stamp`] gives it.
    pub fn stamp(&self, utc: u64) -> Result<Moment, StampFault>
        ensures taken { IsOk result ↔ IsInstant utc }
        ensures value { IfOk result (λ m. m ≡ stamp_of self.now utc) }
        ensures refused { IfErr result (λ e. e ≡ StampFault.OutOfTime) }
    {
        if utc < FIRST_INSTANT || utc > LAST_INSTANT {
            return Err(StampFault::OutOfTime);
        }
        match self.offset(utc) {
            Some(offset) => Ok(stamp_at(utc, offset)),
            None => stamp(&self.zone, utc),
        }
    }
}
