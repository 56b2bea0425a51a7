//! Rows of a long statement.
use pay_day::Moment;
use pay_money::Pence;

/// What a row tells.
#[derive(Clone, Copy, Debug, PartialEq, Eq)]
pub enum RowKind {
    /// Legs between stations, each of which is linked with the next.
    Rail,
    /// A leg that ends at the station where it began.
    Same,
    /// A rail tap without its partner.
    Lone,
    /// A boarding of a bus or a tram.
    Bus,
    /// What a cap took off the fares of a day.
    Cap,
    /// What a cap took off the prices of the week's days.
    WeekCap,
    /// A Credit that counts.
    Credit,
    /// What is left of the Credits where they come to more than the price.
    Unused,
    /// What was posted.
    Posted,
}

/// The amount of a row, and its column.
#[derive(Clone, Copy, Debug, PartialEq, Eq)]
pub enum Amount {
    /// Due for it.
    Due(Pence),
    /// Taken off what is due.
    Off(Pence),
    /// Posted, in pence: below 0 what was given back. It stands in a column of its own.
    Posted(i64),
}

/// A row of a long statement. What it has none of is empty.
#[derive(Clone, Copy, Debug, PartialEq, Eq)]
pub struct Row {
    /// The service day, counted from 1970-01-01.
    pub day: u32,
    /// What the row tells.
    pub kind: RowKind,
    /// The station where a journey began, or its route.
    pub from: Option<u16>,
    /// The station where it ended.
    pub to: Option<u16>,
    /// The moment of its first tap.
    pub start: Option<Moment>,
    /// That of its last one, where it has a second.
    pub end: Option<Moment>,
    /// The amount, in its column.
    pub amount: Amount,
}
