/// What is served.
#[derive(Clone, Copy)]
pub struct Plan {
    /// The port of the first lane. Each further lane has the next.
    pub port: u16,
    /// How many lanes there are, from 1 to 15.
    pub lanes: u8,
    /// How many shards there are, from 1 to 16.
    pub shards: u8,
    /// How many connections each lane serves.
    pub sessions: u32,
    /// The service day that is closed at the end, counted from 1970-01-01.
    pub close: u32,
}
