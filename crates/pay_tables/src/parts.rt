use crate::band::Band;
use crate::interchange::Interchange;
use crate::places::Places;
use crate::rules::Rules;
use crate::single::Single;

/// The parts of which the tables of a file's own keys are made.
#[derive(Drop)]
pub struct FareParts {
    /// How many fare zones there are: 1 to 9.
    pub zones: u8,
    /// How many minutes a leg may last that spans one zone, two zones and so on: 1 to 1,440 each.
    pub minutes: Vec<u32>,
    /// The prices and the times that hold for every journey.
    pub rules: Rules,
    /// The single fares, one for each span within the zones.
    pub singles: Vec<Single>,
    /// The caps.
    pub bands: Vec<Band>,
    /// The service days that are public holidays, by their numbers.
    pub holidays: Vec<u32>,
    /// The stations and routes by their numbers.
    pub places: Places,
    /// The interchanges.
    pub interchanges: Vec<Interchange>,
}

/// What an edition of a fare file says anew: of legs, prices and caps.
#[derive(Drop)]
pub struct EditionParts {
    /// How many minutes a leg may last that spans one zone, two zones and so on: 1 to 1,440 each.
    pub minutes: Vec<u32>,
    /// The prices and the times that hold for every journey.
    pub rules: Rules,
    /// The single fares, one for each span within the zones.
    pub singles: Vec<Single>,
    /// The caps.
    pub bands: Vec<Band>,
}
