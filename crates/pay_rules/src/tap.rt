use pay_day::Moment;

/// Where a tap was made: on the way in or out at a station, or on a bus or a tram.
#[derive(Clone, Copy, Debug, PartialEq, Eq)]
pub enum Kind {
    /// On the way in at a station.
    In,
    /// On the way out at a station.
    Out,
    /// On a bus or a tram, which have no touch out.
    Bus,
}

/// A tap of an account. Its number is the pair of its reader and that reader's sequence number.
#[derive(Clone, Copy, Debug, PartialEq, Eq)]
pub struct Tap {
    /// The account that is charged, from 1.
    pub account: u32,
    /// The reader that was touched, from 1.
    pub reader: u16,
    /// The reader's sequence number.
    pub seq: u32,
    /// The station, or the route of a bus or a tram, from 1.
    pub place: u16,
    /// Where the tap was made.
    pub kind: Kind,
    /// The instant, and where it falls.
    pub stamp: Moment,
}

/// An effective tap: an accepted tap, or the tap that a standing Fill adds. Its number is (`first`,
/// `second`), of an accepted tap the reader and seq, of a filled one the staff and seq of the Fill.
#[derive(Clone, Copy, Debug, PartialEq, Eq)]
pub struct Touch {
    /// Whether a Fill adds it.
    pub filled: bool,
    /// The reader of an accepted tap, the staff of a filled one.
    pub first: u16,
    /// The seq.
    pub second: u32,
    /// The instant, and where it falls.
    pub stamp: Moment,
    /// The station, or the route of a bus or a tram.
    pub place: u16,
    /// Where the tap was made.
    pub kind: Kind,
}

/// An accepted tap is effective as it is.
impl From<Tap> for Touch {
    ghost use Rattle.std.specs.Prelude.{◌≡◌};
    ghost use Rattle.pay_rules.specs.Order.{touch_of};

    ghost from_gives = { λ tap touch. touch ≡ touch_of tap };

    fn from(tap: Tap) -> Touch {
        Touch {
            filled: false,
            first: tap.reader,
            second: tap.seq,
            stamp: tap.stamp,
            place: tap.place,
            kind: tap.kind,
        }
    }
}
