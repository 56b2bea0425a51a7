use crate::interchange::Interchange;
use crate::places::Places;

/// What all editions of a fare file share.
#[derive(Drop)]
pub(crate) struct Network {
    pub(crate) zones: u8,
    pub(crate) holidays: Vec<u32>,
    pub(crate) places: Places,
    pub(crate) interchanges: Vec<Interchange>,
}
