ghost use Rattle.std.specs.Prelude.{◌≡◌};
ghost use Rattle.std.specs.List.{fold};
ghost use Rattle.pay_tables.specs.Words.{IsSpan, AreSpanBounds, bounds_with};
ghost use Rattle.pay_rules.specs.Runs.{stations_of, span_of_legs, span_of_station};

use pay_rules::{Leg, Run};
use pay_tables::{Span, SpanBounds, Tables};

/// The bounds of the span with the stations of a leg, beside those before.
fn also_leg(tables: &Tables, bounds: SpanBounds, leg: &Leg) -> SpanBounds
    ensures value { result ≡ fold bounds_with bounds (stations_of tables.now leg.now) }
    ensures within { AreSpanBounds tables.now.zones bounds → AreSpanBounds tables.now.zones result }
{
    bounds
        .also(tables.station(leg.entry.place))
        .also(tables.station(leg.exit.place))
}

/// The span of all stations of a run of legs.
pub fn span_of_run(tables: &Tables, run: &Run) -> Span
    ensures value { result ≡ span_of_legs tables.now run.now }
    ensures within { IsSpan tables.now.zones result }
{
    let first = run.first();
    let entered = SpanBounds::one(tables.station(first.entry.place));
    let mut bounds = entered.also(tables.station(first.exit.place));
    for leg in run.others() {
        bounds = also_leg(tables, bounds, leg);
    }
    bounds.span()
}

/// The span of the station at a place's number, alone.
pub fn span_of_station(tables: &Tables, place: u16) -> Span
    ensures value { result ≡ span_of_station tables.now place }
    ensures within { IsSpan tables.now.zones result }
{
    SpanBounds::one(tables.station(place)).span()
}
