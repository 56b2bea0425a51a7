use pay_money::Pence;

/// The prices and the times that hold for every journey.
#[derive(Clone, Copy)]
pub struct Rules {
    /// The fare of a bus tap that pays: 0 to 100,000 pence.
    pub bus: Pence,
    /// The fare of a rail tap without its partner: 0 to 100,000 pence.
    pub maximum: Pence,
    /// How many seconds after a paying bus tap further ones are free: 1 to 7,200.
    pub hopper: u32,
    /// How many seconds a leg may last that begins and ends at one station and is free: 0 to 7,200.
    pub same_free: u32,
    /// How many seconds a leg may last that begins and ends at one station: `same_free` to 7,200.
    pub same_limit: u32,
}
