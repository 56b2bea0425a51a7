/// A posting as it is stored, beside its number and its account. Later ones have greater numbers.
#[derive(Clone, Copy, Debug, PartialEq, Eq)]
pub struct PostingRow {
    /// The Monday of the week.
    pub week: i64,
    /// The day through which it is.
    pub through: i64,
    /// How many taps and corrections had been accepted.
    pub version: i64,
    /// What was due, in pence.
    pub due: i64,
    /// What was charged, in pence: below 0 what was given back.
    pub amount: i64,
    /// The first day of the fare edition of its week's Monday: 0 where the row was copied from version 1.
    pub edition: i64,
}

/// What of a posting fell to an operator.
#[derive(Clone, Copy, Debug, PartialEq, Eq)]
pub struct ShareRow {
    /// The number of the posting.
    pub posting: i64,
    /// The operator: 1 to 16.
    pub operator: i64,
    /// Pence: below 0 what was given back.
    pub amount: i64,
}

/// An accepted tap as it is archived, beside its account.
#[derive(Clone, Copy, PartialEq, Eq)]
pub struct TapRow {
    pub reader: i64,
    pub seq: i64,
    /// Seconds of the Unix clock.
    pub utc: i64,
    /// The service day.
    pub day: i64,
    /// The local second of the day.
    pub second: i64,
    pub place: i64,
    /// 0 In, 1 Out, 2 Bus.
    pub kind: i64,
}

/// An accepted correction as it is archived, beside its account.
#[derive(Clone, Copy, PartialEq, Eq)]
pub struct FixRow {
    pub staff: i64,
    pub seq: i64,
    /// 0 Void, 1 Fill, 2 Credit, 3 Drop.
    pub what: i64,
    pub a: i64,
    pub b: i64,
    pub c: i64,
    pub d: i64,
    pub e: i64,
}
