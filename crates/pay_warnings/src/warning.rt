//! What a fare file says that was hardly meant so.
ghost use Rattle.std.specs.Prelude.{◌≡◌};
ghost use Rattle.std.specs.List.{list_any};
ghost use Rattle.pay_warnings.specs.Printed.{is_control, shown_name};

use pay_fare_file::{NamedDay, Spot};
use pay_money::Pence;
use std::fmt;

/// The table of a fare file that a warning is of.
#[derive(Clone, Copy)]
pub struct TableAt {
    /// The first day of the edition that it is in. There is none where it is among the file's own.
    pub edition: Option<u32>,
    /// Where it stands there. There is none for the file itself, and for the edition itself.
    pub spot: Option<Spot>,
}

/// What there is to say of a table of a fare file that is read.
#[derive(Drop)]
pub enum Concern {
    /// Nothing reads a key of it, by the name that it has in the file.
    NotRead(String),
    /// The first price, that of peak, is below the second.
    PeakBelowOff(Pence, Pence),
    /// A fare in it is 0.
    FareOfZero,
    /// The first cap, that of the week, is below the second, that of the day.
    WeekBelowDay(Pence, Pence),
    /// A cap in it is 0: what it covers is free.
    CapOfZero,
    /// It has no bands.
    NoBands,
    /// No holiday comes after the day on which the last edition begins.
    NoHolidayAfter(u32),
    /// It has neither editions nor holidays.
    NoHolidays,
}

/// A warning. It is printed as `at band 2: key wek is not read`.
#[derive(Drop)]
pub struct Warning {
    pub table: TableAt,
    pub concern: Concern,
}

impl fmt::Display for TableAt {
    ghost use Rattle.std.specs.Prelude.{Some};
    ghost use Rattle.pay_warnings.specs.Printed.{table_text};

    ghost output = { λ table. Some (table_text table) };

    fn fmt<W: fmt::Write>(&self, f: &mut fmt::Formatter<W>) -> fmt::Result {
        match (self.edition, self.spot) {
            (None, None) => Ok(()),
            (None, Some(spot)) => write!(f, "at {spot}: "),
            (Some(day), None) => {
                let day = NamedDay(day);
                write!(f, "at the edition of {day}: ")
            }
            (Some(day), Some(spot)) => {
                let day = NamedDay(day);
                write!(f, "at the edition of {day}, {spot}: ")
            }
        }
    }
}

impl fmt::Display for Concern {
    ghost use Rattle.std.specs.Prelude.{Some};
    ghost use Rattle.pay_warnings.specs.Printed.{concern_text};

    ghost output = { λ concern. Some (concern_text concern) };

    fn fmt<W: fmt::Write>(&self, f: &mut fmt::Formatter<W>) -> fmt::Result {
        match self {
            Concern::NotRead(name) => {
                let name = shown_name(name.as_str());
                write!(f, "key {name} is not read")
            }
            Concern::PeakBelowOff(peak, off) => {
                let peak = peak.pence();
                let off = off.pence();
                write!(f, "peak {peak} is below off {off}")
            }
            Concern::FareOfZero => f.write_str("a fare of 0"),
            Concern::WeekBelowDay(week, day) => {
                let week = week.pence();
                let day = day.pence();
                write!(f, "week {week} is below day {day}")
            }
            Concern::CapOfZero => f.write_str("a cap of 0"),
            Concern::NoBands => f.write_str("no bands"),
            Concern::NoHolidayAfter(day) => {
                let day = NamedDay(*day);
                write!(f, "no holiday after {day}")
            }
            Concern::NoHolidays => f.write_str("no holidays"),
        }
    }
}

impl fmt::Display for Warning {
    ghost use Rattle.std.specs.Prelude.{Some};
    ghost use Rattle.pay_warnings.specs.Printed.{said_text};
    ghost use Rattle.pay_warnings.specs.Warnings.{says};

    ghost output = { λ warning. Some (said_text (says warning)) };

    fn fmt<W: fmt::Write>(&self, f: &mut fmt::Formatter<W>) -> fmt::Result {
        let table = self.table;
        let concern = &self.concern;
        write!(f, "{table}{concern}")
    }
}

/// The name of a key, and a sign for one that would break the line: a text in quotes may be a key.
fn shown_name(name: &str) -> &str
    ensures { result.now ≡ shown_name name.now }
{
    if has_control(name.as_bytes()) {
        return "?";
    }
    name
}

fn has_control(bytes: &[u8]) -> bool
    ensures { result ≡ list_any is_control bytes.now }
{
    bytes.iter().any(|byte| is_control(*byte))
}

fn is_control(byte: u8) -> bool
    ensures { result ≡ is_control byte }
{
    byte < 32 || byte == 127
}
