ghost use Rattle.std.specs.Prelude.{◌≡◌, ℕ, ◌+◌, ◌-◌, ◌<◌, ◌≤◌, ◌^◌};

use std::marker::Model;
use std::ops::{Add, Sub};

/// An amount of money: a whole number of pence, not below 0. In a contract it is that number.
#[derive(Clone, Copy, Debug, PartialEq, Eq, PartialOrd, Ord, Hash)]
pub struct Pence {
    pence: u64,
}

impl Model for Pence {
    ghost Value = { ℕ };

    ghost view = { λ amount. amount.pence };

    ghost inverse = { λ pence. record { pence = pence } };
}

impl Pence {
    /// No money.
    pub const ZERO: Pence = Pence { pence: 0 };

    /// That many pence.
    pub fn new(pence: u64) -> Pence
        ensures { result ≡ pence }
    {
        Pence { pence }
    }

    /// How many pence.
    pub fn pence(self) -> u64
        ensures { result ≡ self }
    {
        self.pence
    }
}

const _: () = prove!(Pence::ZERO.pence == 0);

/// The sum, which has to fit in 64 bits.
impl Add for Pence {
    type Output = Pence;

    ghost can_add = { λ a b. a + b < 2 ^ 64 };

    ghost add_gives = { λ a b sum. sum ≡ a + b };

    fn add(self, other: Pence) -> Pence {
        Pence {
            pence: self.pence + other.pence,
        }
    }
}

/// The difference: no more may be taken away than is there.
impl Sub for Pence {
    type Output = Pence;

    ghost can_sub = { λ a b. b ≤ a };

    ghost sub_gives = { λ a b difference. difference ≡ a - b };

    fn sub(self, other: Pence) -> Pence {
        Pence {
            pence: self.pence - other.pence,
        }
    }
}
