use pay_rules::{Fix, Tap};

/// What a command asks.
#[derive(Clone, Copy, Debug, PartialEq, Eq)]
pub enum Asked {
    /// Accept a tap and price it.
    Tap(Tap),
    /// Accept a correction and price the day that it names.
    Fix(Fix),
    /// What an account owes of the week of a service day, through that day. Days are counted from 1970-01-01.
    Due {
        /// The account, from 1.
        account: u32,
        /// The service day.
        day: u32,
    },
    /// The journeys of a service day of an account, and its price.
    Show {
        /// The account, from 1.
        account: u32,
        /// The service day.
        day: u32,
    },
    /// What each account of a shard owes of the week of a service day, through that day, and all that it has accepted: of the
    /// accounts with a tap or a filled tap on one of these days.
    Quotes {
        /// The service day.
        day: u32,
        /// Which shard, from 0: its accounts leave this remainder by `of`.
        shard: u8,
        /// How many shards there are.
        of: u8,
    },
}
