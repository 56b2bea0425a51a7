ghost use Rattle.std.specs.Prelude.{◌≡◌, ◌≤◌, length};
ghost use Rattle.pay_rules.specs.KindWords.{word_of_kind};

use pay_money::Pence;
use std::marker::Model;

/// What a journey was.
#[derive(Clone, Copy, Debug, PartialEq, Eq)]
pub enum LineKind {
    /// Legs between stations, each of which is linked with the next.
    Rail,
    /// A leg that ends at the station where it began.
    Same,
    /// A rail tap without its partner.
    Lone,
    /// A boarding of a bus or a tram.
    Bus,
}

impl LineKind {
    /// Its word in replies and statements, in capital letters.
    pub fn word(self) -> &'static [u8]
        ensures word { result.now ≡ word_of_kind self }
        ensures short { length result.now ≤ 4 }
    {
        match self {
            LineKind::Rail => b"RAIL",
            LineKind::Same => b"SAME",
            LineKind::Lone => b"LONE",
            LineKind::Bus => b"BUS",
        }
    }
}

/// A journey as it is shown.
#[derive(Clone, Copy, Debug, PartialEq, Eq)]
pub struct Line {
    /// Its service day, counted from 1970-01-01.
    pub day: u32,
    /// What it was.
    pub kind: LineKind,
    /// The station where it began, or the route: 0 if only a tap on the way out is known.
    pub from: u16,
    /// The station where it ended: 0 if none is known, and for a bus or a tram.
    pub to: u16,
    /// The instant of its first tap, in seconds of the Unix clock.
    pub utc: u64,
    /// The local second of the day of its first tap.
    pub second: u32,
    /// What it costs by itself, before any cap.
    pub fare: Pence,
    /// The band that gives the day's price, where it covers this journey, by its place in the fare file.
    pub band: Option<u8>,
}

/// Lines in order. In a contract they are the list of them.
#[derive(Drop)]
pub struct Lines {
    lines: Vec<Line>,
}

impl Model for Lines {
    ghost use Rattle.std.specs.Prelude.{List};
    ghost use Rattle.pay_rules.specs.declared.shown.Line.{Line};
    ghost use Rattle.pay_rules.specs.LinesCode.{lines_code};

    ghost Value = { List Line };

    ghost coded = { lines_code };

    ghost view = { λ l. l.lines.items };
}

impl Lines {
    /// The lines as a slice.
    pub fn as_slice(&self) -> &[Line]
        ensures { result.now ≡ self.now }
    {
        &self.lines
    }

    /// The lines, which takes no memory.
    pub fn into_vec(self) -> Vec<Line>
        ensures { result.items ≡ self }
    {
        self.lines
    }
}

/// Lines are made of a vector, which takes no memory.
impl From<Vec<Line>> for Lines {
    ghost use Rattle.std.specs.Prelude.{◌≡◌};

    ghost from_gives = { λ vector lines. lines ≡ vector.items };

    fn from(lines: Vec<Line>) -> Lines {
        Lines { lines }
    }
}

/// What an account shows of a service day.
#[derive(Drop)]
pub struct Shown {
    /// The account.
    pub account: u32,
    /// The service day, counted from 1970-01-01.
    pub day: u32,
    /// Its journeys in the order of their first taps, rail and bus together.
    pub lines: Lines,
    /// The price of the day.
    pub day_price: Pence,
}
