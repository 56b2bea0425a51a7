use pay_day::Moment;

/// Why a rail tap stands alone.
#[derive(Clone, Copy, Debug, PartialEq, Eq)]
pub enum LoneReason {
    /// A tap on the way in, after which none on the way out comes next.
    NoExit,
    /// A tap on the way in, after which one on the way out comes next, but too late.
    LateExit {
        /// The instant of the tap on the way out.
        exit: Moment,
        /// How many seconds are allowed between the two.
        allowed: u32,
    },
    /// A tap on the way out, right before which none on the way in comes.
    NoEntry,
    /// A tap on the way out, right before which one on the way in comes, but too long before.
    EarlyEntry {
        /// The instant of the tap on the way in.
        entry: Moment,
        /// How many seconds are allowed between the two.
        allowed: u32,
    },
}
