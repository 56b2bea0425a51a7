/// How much of each kind a fare file has.
#[derive(Clone, Copy, Debug, PartialEq, Eq)]
pub struct Counts {
    /// How many stations and routes.
    pub places: usize,
    /// How many bands.
    pub bands: usize,
    /// How many interchanges.
    pub interchanges: usize,
    /// How many public holidays.
    pub holidays: usize,
}
