ghost use Rattle.std.specs.Prelude.{◌≡◌, ◌≤◌, ℕ, All, length};
ghost use Rattle.pay_tables.specs.FareTables.{IsPlace};
ghost use Rattle.pay_tables.specs.Spans.{IsSpan, AreSpanBounds, low_of, high_of, bounds_of_one, bounds_with, bounds_of, span_of_bounds, span_of};

use crate::place::Place;
use crate::zones::Span;

/// What bounds the span of the stations that a journey touches, of those so far.
#[derive(Clone, Copy)]
pub struct SpanBounds {
    /// The least of their higher zones.
    pub least_high: u8,
    /// The greatest of their lower zones.
    pub greatest_low: u8,
}

impl Place {
    /// The zones of a station, the lower and the higher. A route counts as a station in zone 1.
    fn zones(self) -> (u8, u8)
        ensures { result ≡ (low_of self, high_of self) }
    {
        match self {
            Place::Station { low, high, .. } => (low, high),
            Place::Route { .. } => (1, 1),
        }
    }

    /// The lower zone of a station. A route counts as a station in zone 1.
    pub fn low(self) -> u8
        ensures { result ≡ low_of self }
    {
        self.zones().0
    }
}

impl SpanBounds {
    /// One station.
    #[tactic(auto, using(crate::proofs::Spans::one_within))]
    pub fn one(station: Place) -> SpanBounds
        ensures value { result ≡ bounds_of_one station }
        ensures within { (zones : ℕ) → IsPlace zones station → AreSpanBounds zones result }
    {
        let (low, high) = station.zones();
        SpanBounds {
            least_high: high,
            greatest_low: low,
        }
    }

    /// One station more.
    #[tactic(auto, using(crate::proofs::Spans::also_within))]
    pub fn also(self, station: Place) -> SpanBounds
        ensures value { result ≡ bounds_with self station }
        ensures within { (zones : ℕ) → AreSpanBounds zones self → IsPlace zones station → AreSpanBounds zones result }
    {
        let (low, high) = station.zones();
        SpanBounds {
            least_high: self.least_high.min(high),
            greatest_low: self.greatest_low.max(low),
        }
    }

    /// The span of the stations: from the least higher zone to the greatest lower one, or that zone
    /// alone if the other is below it. A journey is given the narrowest span that its stations allow.
    #[tactic(auto, using(crate::proofs::Spans::span_within))]
    pub fn span(self) -> Span
        ensures value { result ≡ span_of_bounds self }
        ensures within { (zones : ℕ) → AreSpanBounds zones self → IsSpan zones result }
    {
        Span {
            from: self.least_high,
            to: self.least_high.max(self.greatest_low),
        }
    }
}

/// What stations say of the span together.
fn bounds_of(stations: &[Place]) -> SpanBounds
    requires { 1 ≤ length stations.now }
    ensures { result ≡ bounds_of stations.now }
{
    let first = SpanBounds::one(stations[0]);
    stations[1..]
        .iter()
        .fold(first, |bounds, station| bounds.also(*station))
}

/// The span of the stations that a journey touches.
pub fn span(stations: &[Place]) -> Span
    requires { 1 ≤ length stations.now }
    ensures value { result ≡ span_of stations.now }
    ensures within { (zones : ℕ) → All (IsPlace zones) stations.now → IsSpan zones result }
{
    bounds_of(stations).span()
}
