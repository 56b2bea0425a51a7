ghost use Rattle.std.specs.Prelude.{◌≡◌};
ghost use Rattle.pay_tables.specs.FareTables.{is_between};

/// Two stations between which a journey may go on.
#[derive(Clone, Copy)]
pub struct Interchange {
    /// The place number of one station.
    pub a: u16,
    /// The place number of the other.
    pub b: u16,
    /// How many seconds may pass between the exit at one and the entry at the other: 1 to 7,200.
    pub seconds: u32,
}

impl Interchange {
    /// Whether it is between two stations, in either order.
    pub fn is_between(&self, a: u16, b: u16) -> bool
        ensures { result ≡ is_between a b self.now }
    {
        (self.a == a && self.b == b) || (self.a == b && self.b == a)
    }
}
