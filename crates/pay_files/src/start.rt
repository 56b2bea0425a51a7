//! How a service starts.
ghost use Rattle.std.specs.Prelude.{◌≡◌, ◌/◌};
ghost use Rattle.std.specs.Duration.{as_nanos};

use std::fmt;
use std::time::{Duration, Instant};

/// How a service starts.
#[derive(Clone, Copy)]
pub struct Start {
    /// When that began, if the clock could tell.
    pub began: Option<Instant>,
    /// How many lines of journals are taken again.
    pub lines: u64,
}

/// What a start took, as it is said: `took 290000 lines of journals in 9.8 s`.
#[derive(Clone, Copy)]
pub(crate) struct Took {
    lines: u64,
    tenths: u128,
}

impl Took {
    /// So many lines, and so long.
    pub fn new(lines: u64, time: Duration) -> Took
        ensures lines { result.lines ≡ lines }
        ensures tenths { result.tenths ≡ as_nanos time / 1_000_000 / 100 }
    {
        let tenths = time.as_millis() / 100;
        Took { lines, tenths }
    }
}

impl fmt::Display for Took {
    ghost use Rattle.std.specs.Prelude.{Some};
    ghost use Rattle.pay_files.specs.Logged.{took_text};

    ghost output = { λ took. Some (took_text took.lines took.tenths) };

    fn fmt<W: fmt::Write>(&self, f: &mut fmt::Formatter<W>) -> fmt::Result {
        let lines = self.lines;
        let seconds = self.tenths / 10;
        let tenths = self.tenths % 10;
        write!(f, "took {lines} lines of journals in {seconds}.{tenths} s")
    }
}
