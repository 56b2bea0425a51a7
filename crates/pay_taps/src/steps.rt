ghost use Rattle.std.specs.Prelude.{◌≡◌, ◌≤◌};
ghost use Rattle.pay_taps.specs.Timelines.{counted};

use pay_rules::Touch;
use std::marker::Model;

/// How many taps were read of timelines: one more for each tap that `Timeline` answers. At the greatest value
/// of its type it stays there. In a contract it is that number.
#[derive(Clone, Copy)]
pub struct Steps {
    count: u64,
}

impl Model for Steps {
    ghost use Rattle.std.specs.Prelude.{ℕ};

    ghost Value = { ℕ };

    ghost view = { λ steps. steps.count };

    ghost inverse = { λ count. record { count = count } };
}

impl Steps {
    /// None was read yet.
    pub fn new() -> Steps
        ensures { result ≡ 0 }
    {
        Steps { count: 0 }
    }

    /// How many were read.
    pub fn count(&self) -> u64
        ensures { result ≡ self.now }
    {
        self.count
    }

    /// Counts what was read.
    pub(crate) fn add(&mut self, found: &Option<Touch>)
        ensures value { self.new ≡ counted found.now self.old }
        ensures rises { self.old ≤ self.new }
    {
        if found.is_some() {
            self.count = self.count.saturating_add(1);
        }
    }
}
