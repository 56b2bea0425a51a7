ghost use Rattle.std.specs.Prelude.{◌≡◌};
ghost use Rattle.pay_tables.specs.declared.limits.TheConstants.{MOST_ZONES};
ghost use Rattle.pay_caps.specs.CellOf.{IsCell, cell_of};
ghost use Rattle.pay_rules.specs.Covers.{covers};

use pay_fares::{span_of_run, span_of_station};
use pay_rules::Journey;
use pay_tables::{Band, Span, Tables};

/// Which sum the fare of a journey belongs to.
#[derive(Clone, Copy, Debug, PartialEq, Eq)]
pub enum Cell {
    /// That of the journeys by rail of one span.
    Rail(Span),
    /// That of the boardings of buses and trams.
    Buses,
    /// That of the maximum fares, which no band covers.
    Maximum,
}

/// The sum that a journey's fare belongs to.
#[tactic(auto, using(crate::proofs::Ranges::wider))]
pub fn cell_of(tables: &Tables, journey: &Journey) -> Cell
    ensures value { result ≡ cell_of tables.now journey.now }
    ensures in_range { IsCell MOST_ZONES result }
{
    tables.zones();
    match journey {
        Journey::Run(run) => Cell::Rail(span_of_run(tables, run)),
        Journey::Same(leg) => Cell::Rail(span_of_station(tables, leg.entry.place)),
        Journey::Lone(_) => Cell::Maximum,
        Journey::Bus { .. } => Cell::Buses,
    }
}

/// Whether a band covers a journey: a band of zones covers the journeys by rail whose span lies within
/// them, and all boardings; the bus band covers the boardings alone. A rail tap without its partner is
/// covered by none.
pub fn covers(tables: &Tables, band: &Band, journey: &Journey) -> bool
    ensures { result ≡ covers tables.now band.now journey.now }
{
    match cell_of(tables, journey) {
        Cell::Rail(span) => band.cover.covers(span),
        Cell::Buses => true,
        Cell::Maximum => false,
    }
}
