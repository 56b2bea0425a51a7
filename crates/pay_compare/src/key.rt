use pay_tables::Span;
use std::fmt;
use std::fmt::{Display, Formatter, Write};

/// A key of a fare file by which two files price a day otherwise.
#[derive(Clone, Copy, Debug, PartialEq, Eq)]
pub enum Key {
    /// There are fewer zones.
    Zones,
    /// The allowed time of legs that span so many zones: 1 to 9.
    Minutes(u8),
    /// The bus fare.
    Bus,
    /// The maximum fare.
    Maximum,
    /// The Hopper time.
    Hopper,
    /// How long a leg at one station is free.
    SameFree,
    /// How long a leg at one station may last.
    SameLimit,
    /// The single fare of a span.
    Single(Span),
    /// The bands, what they cover and their caps, in their order.
    Band,
    /// Whether the day is a public holiday.
    Holidays,
    /// What stands at a place's number.
    Place(u16),
    /// The time between two stations.
    Interchange(u16, u16),
}

impl Display for Key {
    fn fmt<W: Write>(&self, f: &mut Formatter<W>) -> fmt::Result {
        match *self {
            Key::Zones => f.write_str("zones"),
            Key::Minutes(zones) => write!(f, "minutes for {zones} zones"),
            Key::Bus => f.write_str("rules.bus"),
            Key::Maximum => f.write_str("rules.maximum"),
            Key::Hopper => f.write_str("rules.hopper"),
            Key::SameFree => f.write_str("rules.same_free"),
            Key::SameLimit => f.write_str("rules.same_limit"),
            Key::Single(span) => write!(f, "single from {} to {}", span.from, span.to),
            Key::Band => f.write_str("band"),
            Key::Holidays => f.write_str("holidays"),
            Key::Place(number) => write!(f, "place {number}"),
            Key::Interchange(a, b) => write!(f, "interchange {a} {b}"),
        }
    }
}
