use pay_money::Pence;
use pay_rules::Touch;

/// How a journey is made.
#[derive(Clone, Copy, Debug, PartialEq, Eq)]
pub enum Mode {
    /// By rail.
    Rail,
    /// By bus or tram: a boarding.
    Bus,
}

/// A journey of a service day, by which its reason is asked for: a boarding's by `boarding_reason`, any
/// other's by `rail_reason_at`.
#[derive(Clone, Copy, Debug, PartialEq, Eq)]
pub struct ListedJourney {
    /// How it is made.
    pub mode: Mode,
    /// Its place, from 0, among all journeys of the account that are made so, in their order.
    pub place: usize,
    /// Its first tap.
    pub tap: Touch,
    /// What it costs by itself, before any cap.
    pub fare: Pence,
}
