use crate::tap::Touch;

/// A way by rail, from a tap on the way in to the one on the way out.
#[derive(Clone, Copy)]
pub struct Leg {
    /// The tap on the way in.
    pub entry: Touch,
    /// The tap on the way out.
    pub exit: Touch,
}

/// What a rail tap belongs to.
#[derive(Clone, Copy)]
pub enum RailPart {
    /// Two taps that are a leg.
    Leg(Leg),
    /// A tap without its partner.
    Lone(Touch),
}
