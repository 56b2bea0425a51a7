/// What stands at a place's number, and whose it is.
#[derive(Clone, Copy, Debug, PartialEq, Eq)]
pub enum Place {
    /// A station, in one fare zone or in two neighbouring ones.
    Station {
        /// The lower of its zones.
        low: u8,
        /// The higher of its zones: `low` or `low + 1`.
        high: u8,
        /// The operator that its fares go to: 1 to 16.
        operator: u8,
    },
    /// A bus or tram route.
    Route {
        /// The operator that its fares go to: 1 to 16.
        operator: u8,
    },
}
