use crate::tables::Tables;

/// Fares that hold from a service day on.
#[derive(Drop)]
pub struct Edition {
    /// The first day, counted from 1970-01-01: 5 to 50,000.
    pub day: u32,
    /// The tables from that day on.
    pub tables: Tables,
}
