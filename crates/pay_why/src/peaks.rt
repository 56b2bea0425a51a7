ghost use Rattle.std.specs.Prelude.{◌≡◌};
ghost use Rattle.pay_rules.specs.Peak.{is_morning, is_evening};
ghost use Rattle.pay_why.specs.Peaks.{peak_reason};

use crate::peak::PeakReason;
use pay_day::day_of_week;
use pay_day::limits::SATURDAY;
use pay_fares::is_peak;
use pay_rules::Journey;
use pay_rules::limits::{
    EVENING_PEAK_END, EVENING_PEAK_START, MORNING_PEAK_END, MORNING_PEAK_START,
};
use pay_tables::Tables;

/// Whether a local second is in the morning's peak.
fn is_morning(second: u32) -> bool
    ensures { result ≡ is_morning second }
{
    (MORNING_PEAK_START..MORNING_PEAK_END).contains(&second)
}

/// Whether a local second is in the evening's peak.
fn is_evening(second: u32) -> bool
    ensures { result ≡ is_evening second }
{
    (EVENING_PEAK_START..EVENING_PEAK_END).contains(&second)
}

/// Why a journey is peak or off-peak: by its first tap alone, whichever day and time its later ones have,
/// and in the evening by whether it goes from outside of zone 1 into it.
///
/// `tables` are those of the journey's service day.
pub fn peak_reason(tables: &Tables, journey: &Journey) -> PeakReason
    ensures { result ≡ peak_reason tables.now journey.now }
{
    let stamp = journey.first_tap().stamp;
    if day_of_week(stamp.day()) >= SATURDAY {
        PeakReason::Weekend
    } else if tables.is_holiday(stamp.day()) {
        PeakReason::Holiday
    } else if is_morning(stamp.second()) {
        PeakReason::Morning
    } else if !is_evening(stamp.second()) {
        PeakReason::OutsidePeakHours
    } else if is_peak(tables, journey) {
        PeakReason::Evening
    } else {
        PeakReason::IntoZoneOne
    }
}
