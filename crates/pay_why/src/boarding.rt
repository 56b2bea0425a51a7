use pay_day::Moment;

/// Why a boarding costs what it costs, by the Hopper rule.
#[derive(Clone, Copy, Debug, PartialEq, Eq)]
pub enum BoardingReason {
    /// It pays: it is the account's first boarding.
    First,
    /// It pays: the last boarding before it that paid, at this instant, was longer ago than the Hopper time.
    PaysAfter(Moment),
    /// It is free: the last boarding before it that paid, at this instant, was at most the Hopper time earlier.
    FreeAfter(Moment),
}
