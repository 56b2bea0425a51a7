ghost use Rattle.std.specs.Prelude.{◌≡◌};
ghost use Rattle.pay_rules.specs.Peak.{is_weekday, is_morning, is_evening, is_peak_time, is_into_zone_one, is_excepted, is_peak};

use crate::runs::span_of_run;
use pay_day::limits::SATURDAY;
use pay_day::{Moment, day_of_week};
use pay_rules::limits::{
    EVENING_PEAK_END, EVENING_PEAK_START, MORNING_PEAK_END, MORNING_PEAK_START,
};
use pay_rules::{Journey, Run};
use pay_tables::Tables;

/// Whether the service day of a moment is one of Monday to Friday.
fn is_weekday(stamp: Moment) -> bool
    ensures { result ≡ is_weekday stamp.day }
{
    day_of_week(stamp.day()) < SATURDAY
}

/// Whether a local second is from 06:30:00 up to but not including 09:30:00.
fn is_morning(second: u32) -> bool
    ensures { result ≡ is_morning second }
{
    (MORNING_PEAK_START..MORNING_PEAK_END).contains(&second)
}

/// Whether a local second is from 16:00:00 up to but not including 19:00:00.
fn is_evening(second: u32) -> bool
    ensures { result ≡ is_evening second }
{
    (EVENING_PEAK_START..EVENING_PEAK_END).contains(&second)
}

/// Whether a moment is at a peak time.
fn is_peak_time(tables: &Tables, stamp: Moment) -> bool
    ensures { result ≡ is_peak_time tables.now stamp }
{
    is_weekday(stamp)
        && !tables.is_holiday(stamp.day())
        && (is_morning(stamp.second()) || is_evening(stamp.second()))
}

/// Whether a run of legs goes into zone 1: its span begins there, its first station is outside, and
/// its last one is not.
fn is_into_zone_one(tables: &Tables, run: &Run) -> bool
    ensures { result ≡ is_into_zone_one tables.now run.now }
{
    let first = tables.station(run.first().entry.place);
    let last = tables.station(run.last().exit.place);
    first.low() > 1 && last.low() == 1 && span_of_run(tables, run).from == 1
}

/// Whether a journey falls under the evening exception to peak: a run of legs that starts in the
/// evening and goes into zone 1.
fn is_excepted(tables: &Tables, journey: &Journey) -> bool
    ensures { result ≡ is_excepted tables.now journey.now }
{
    match journey {
        Journey::Run(run) => {
            is_evening(run.first().entry.stamp.second()) && is_into_zone_one(tables, run)
        }
        Journey::Same(_) | Journey::Lone(_) | Journey::Bus { .. } => false,
    }
}

/// Whether a journey is peak: its first tap is on a service day from Monday to Friday that is no
/// public holiday, at a local time from 06:30:00 up to but not including 09:30:00, or from 16:00:00 up
/// to but not including 19:00:00.
///
/// A run of legs that starts in the second window is off-peak all the same if it goes into zone 1: if
/// its span begins there, its first station is in no part of zone 1, and its last one is in it.
pub fn is_peak(tables: &Tables, journey: &Journey) -> bool
    ensures { result ≡ is_peak tables.now journey.now }
{
    is_peak_time(tables, journey.first_tap().stamp) && !is_excepted(tables, journey)
}
