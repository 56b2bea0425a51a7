ghost use Rattle.std.specs.Prelude.{◌≡◌};
ghost use Rattle.pay_tables.specs.Bands.{same_cover, covers_span};

use crate::zones::Span;
use pay_money::Pence;

/// What a band covers.
#[derive(Clone, Copy, Debug, PartialEq, Eq)]
pub enum Cover {
    /// The boardings of buses and trams alone.
    Buses,
    /// The journeys by rail whose span lies within these zones, and all boardings.
    Zones(Span),
}

impl Cover {
    /// Whether a journey by rail of this span is covered.
    pub fn covers(self, span: Span) -> bool
        ensures { result ≡ covers_span self span }
    {
        match self {
            Cover::Buses => false,
            Cover::Zones(zones) => zones.from <= span.from && span.to <= zones.to,
        }
    }

    /// Whether it covers the same as another.
    pub fn same_as(self, other: Cover) -> bool
        ensures { result ≡ same_cover self other }
    {
        match (self, other) {
            (Cover::Buses, Cover::Buses) => true,
            (Cover::Zones(zones), Cover::Zones(others)) => zones == others,
            _ => false,
        }
    }
}

/// A fare band: what the covered journeys of an account cost at most.
#[derive(Clone, Copy, Debug, PartialEq, Eq)]
pub struct Band {
    /// Which journeys are covered.
    pub cover: Cover,
    /// The most that a day's covered journeys cost: 0 to 100,000 pence.
    pub day: Pence,
    /// The most that those of a week, Monday to Sunday, cost: 0 to 100,000 pence.
    pub week: Pence,
}
