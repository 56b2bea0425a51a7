ghost use Rattle.std.specs.Prelude.{◌≡◌};

use std::marker::Model;

/// What a desk gives for a command, and takes for the reply to it. In a contract it is its number.
#[derive(Clone, Copy)]
pub struct Ticket {
    number: u64,
}

impl Model for Ticket {
    ghost use Rattle.std.specs.Prelude.{ℕ};

    ghost Value = { ℕ };

    ghost view = { λ t. t.number };

    ghost inverse = { λ n. record { number = n } };
}

impl Ticket {
    /// The ticket of a number.
    pub fn of(number: u64) -> Ticket
        ensures { result ≡ number }
    {
        Ticket { number }
    }

    /// Its number.
    pub fn number(self) -> u64
        ensures { result ≡ self }
    {
        self.number
    }
}
