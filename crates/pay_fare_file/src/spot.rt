//! Where a fare file is at fault.
use crate::key::Key;
use crate::named_day::NamedDay;
use std::fmt;

/// A place among the keys of a file, or of one of its editions.
#[derive(Clone, Copy)]
pub enum Spot {
    /// What stands at a key, as a whole.
    AtKey(Key),
    /// What stands at a key of `rules`.
    InRules(Key),
    /// An item of the array at a key, counted from 1.
    AtItem(Key, usize),
    /// What stands at a key, the last, of such an item.
    InItem(Key, usize, Key),
}

impl Spot {
    ghost use Rattle.std.specs.Prelude.{◌≡◌};
    ghost use Rattle.pay_fare_file.specs.Spots.{spot_key};

    /// The key that is read there.
    pub fn key(self) -> Key
        ensures { result ≡ spot_key self }
    {
        match self {
            Spot::AtKey(key) => key,
            Spot::InRules(key) => key,
            Spot::AtItem(array, _) => array,
            Spot::InItem(_, _, key) => key,
        }
    }
}

impl fmt::Display for Spot {
    ghost use Rattle.std.specs.Prelude.{Some};
    ghost use Rattle.pay_fare_file.specs.Printed.{spot_text};

    ghost output = { λ spot. Some (spot_text spot) };

    fn fmt<W: fmt::Write>(&self, f: &mut fmt::Formatter<W>) -> fmt::Result {
        match self {
            Spot::AtKey(key) => write!(f, "key {key}"),
            Spot::InRules(key) => write!(f, "key rules.{key}"),
            Spot::AtItem(array, number) => write!(f, "{array} {number}"),
            Spot::InItem(array, number, key) => write!(f, "{array} {number}, key {key}"),
        }
    }
}

/// Where a fare file is at fault. It is printed as what follows the fault: `at band 3, key week`.
#[derive(Clone, Copy)]
pub enum FaultPlace {
    /// The line of a text that is no TOML, counted from 1.
    Line(usize),
    /// Among the file's own keys. An edition as a whole, and its `day`, are here too.
    Own(Spot),
    /// Among the other keys of the edition that begins on a day.
    OfEdition(u32, Spot),
}

impl fmt::Display for FaultPlace {
    ghost use Rattle.std.specs.Prelude.{Some};
    ghost use Rattle.pay_fare_file.specs.Printed.{place_text};

    ghost output = { λ place. Some (place_text place) };

    fn fmt<W: fmt::Write>(&self, f: &mut fmt::Formatter<W>) -> fmt::Result {
        match self {
            FaultPlace::Line(line) => write!(f, "at line {line}"),
            FaultPlace::Own(spot) => write!(f, "at {spot}"),
            FaultPlace::OfEdition(day, spot) => {
                let day = NamedDay(*day);
                write!(f, "at the edition of {day}, {spot}")
            }
        }
    }
}
