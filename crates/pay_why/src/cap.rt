use pay_money::Pence;
use pay_tables::Cover;

/// The band that gives the price of a day, or of a week.
#[derive(Clone, Copy, Debug, PartialEq, Eq)]
pub struct CappedBand {
    /// Its place in the fare file, from 0.
    pub place: u8,
    /// Which journeys it covers.
    pub cover: Cover,
    /// What those cost with its cap: the cap of a day, or that of a week.
    pub cap: Pence,
    /// What they come to without it, which is more.
    pub inside: Pence,
    /// What the journeys come to that it leaves outside.
    pub outside: Pence,
}

/// Why the journeys of a day, or of a week, cost what they cost together.
#[derive(Clone, Copy, Debug, PartialEq, Eq)]
pub struct CapReason {
    /// What all but the lone taps come to by no band: of a day their fares, of a week the prices of its days.
    pub uncapped: Pence,
    /// The band whose offer is the least, if one offers less than that.
    pub band: Option<CappedBand>,
    /// The maximum fares of lone taps, which are outside of every cap.
    pub maximum: Pence,
    /// What is charged: the least offer and the maximum fares.
    pub price: Pence,
}
