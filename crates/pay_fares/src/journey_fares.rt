ghost use Rattle.std.specs.Prelude.{◌≡◌, ◌≤◌};
ghost use Rattle.pay_tables.specs.declared.limits.TheConstants.{MOST_FARE};
ghost use Rattle.pay_rules.specs.JourneyFares.{is_free, fare, fare_by};

use crate::peak::is_peak;
use crate::runs::{span_of_run, span_of_station};
use pay_money::Pence;
use pay_rules::{Journey, Leg};
use pay_tables::{Editions, Tables};

/// Whether a leg that ends where it began is free.
fn is_free(tables: &Tables, leg: &Leg) -> bool
    ensures { result ≡ is_free tables.now leg.now }
{
    leg.exit.stamp.utc() <= leg.entry.stamp.utc() + u64::from(tables.rules().same_free)
}

/// What a journey costs by itself, before any cap, in pence.
///
/// A run of legs costs the single fare of the span of all its stations. A leg that ends at the station
/// where it began costs nothing up to `same_free` seconds, and then the single fare of the station's own
/// span. A rail tap without its partner costs the maximum fare. A boarding costs the bus fare if it
/// pays, and else nothing.
pub fn fare(tables: &Tables, journey: &Journey) -> Pence
    ensures value { result ≡ fare tables.now journey.now }
    ensures in_range { result ≤ MOST_FARE }
{
    match journey {
        Journey::Run(run) => tables.single(span_of_run(tables, run), is_peak(tables, journey)),
        Journey::Same(leg) if is_free(tables, leg) => Pence::ZERO,
        Journey::Same(leg) => {
            let span = span_of_station(tables, leg.entry.place);
            tables.single(span, is_peak(tables, journey))
        }
        Journey::Lone(_) => tables.rules().maximum,
        Journey::Bus { pays: true, .. } => tables.rules().bus,
        Journey::Bus { pays: false, .. } => Pence::ZERO,
    }
}

/// What a journey costs by the edition of its service day, which is that of its first tap.
pub fn fare_by(editions: &Editions, journey: &Journey) -> Pence
    ensures value { result ≡ fare_by editions.now journey.now }
    ensures in_range { result ≤ MOST_FARE }
{
    let day = journey.first_tap().stamp.day();
    fare(editions.on(day), journey)
}
