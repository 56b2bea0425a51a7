ghost use Rattle.std.specs.Prelude.{◌≡◌};
ghost use Rattle.pay_rules.specs.declared.journey.Journey.TheVariants as journey;
ghost use Rattle.pay_why.specs.Peaks.{peak_reason};
ghost use Rattle.pay_why.specs.RailReasons.{run_reason, same_reason, rail_reason};

use crate::lone_taps::lone_reason;
use crate::peak::PeakReason;
use crate::peaks::peak_reason;
use crate::rail::RailReason;
use pay_fares::{span_of_run, span_of_station};
use pay_rules::{Journey, Leg, Run, Touch};
use pay_tables::{Editions, Tables};

/// Why linked legs cost what they cost, where they are peak or off-peak for that reason.
fn run_reason(tables: &Tables, run: &Run, peak: PeakReason) -> RailReason
    requires { peak ≡ peak_reason tables.now (journey.Run run.now) }
    ensures { result ≡ run_reason tables.now run.now }
{
    RailReason::SingleFare {
        span: span_of_run(tables, run),
        peak,
    }
}

/// Why a leg that ends where it began costs what it costs, where it is peak or off-peak for that reason.
fn same_reason(tables: &Tables, leg: &Leg, peak: PeakReason) -> RailReason
    requires { peak ≡ peak_reason tables.now (journey.Same leg.now) }
    ensures { result ≡ same_reason tables.now leg.now }
{
    let seconds = leg.exit.stamp.utc().saturating_sub(leg.entry.stamp.utc());
    if seconds <= u64::from(tables.rules().same_free) {
        return RailReason::FreeAtStation { seconds };
    }
    RailReason::SameStation {
        seconds,
        span: span_of_station(tables, leg.entry.place),
        peak,
    }
}

/// Why a journey by rail costs what it costs by itself, before any cap; none of a boarding, whose reason
/// `boarding_reason` gives.
///
/// `before` and `after` are the account's rail taps right before its first tap and right after its last
/// one, of whichever day. They say why a tap stands alone, and nothing else. All is by the edition of the
/// journey's service day, but for the seconds that are allowed, which are by that of the tap in.
pub fn rail_reason(
    editions: &Editions,
    before: &Option<Touch>,
    journey: &Journey,
    after: &Option<Touch>,
) -> Option<RailReason>
    ensures { result ≡ rail_reason editions.now before.now journey.now after.now }
{
    let tables = editions.on(journey.first_tap().stamp.day());
    match journey {
        Journey::Run(run) => Some(run_reason(tables, run, peak_reason(tables, journey))),
        Journey::Same(leg) => Some(same_reason(tables, leg, peak_reason(tables, journey))),
        Journey::Lone(tap) => Some(RailReason::MaximumFare(lone_reason(
            editions, before, tap, after,
        ))),
        Journey::Bus { .. } => None,
    }
}
