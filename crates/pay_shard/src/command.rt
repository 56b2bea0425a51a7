ghost use Rattle.std.specs.Prelude.{◌≡◌, ◌↔◌, IsTrue, IsSome, IfSome};
ghost use Rattle.pay_day.specs.Words.{IsDay};
ghost use Rattle.pay_shard.specs.Ranges.{IsWhatInRange, IsInRange};

use crate::asked::Asked;
use crate::limits::MOST_SHARDS;
use pay_day::limits::{FIRST_DAY, LAST_DAY};
use pay_rules::What;
use std::marker::Model;

/// A command whose numbers are in their ranges. In a contract it is what it asks.
#[derive(Clone, Copy, Debug, PartialEq, Eq)]
pub struct Command {
    asked: Asked,
}

impl Model for Command {
    ghost use Rattle.pay_shard.specs.declared.asked.Asked.{Asked};
    ghost use Rattle.pay_shard.specs.Ranges.{IsInRange};

    ghost Value = { Asked };

    ghost view = { λ c. c.asked };

    ghost invariant = { λ c. IsInRange c.asked };

    ghost inverse = { λ a. record { asked = a } };
}

/// Whether the number of a service day may be asked for.
fn is_day(day: u32) -> bool
    ensures { IsTrue result ↔ IsDay day }
{
    FIRST_DAY <= day && day <= LAST_DAY
}

/// Whether what a correction names is numbered from 1.
fn is_what_in_range(what: &What) -> bool
    ensures { IsTrue result ↔ IsWhatInRange what.now }
{
    match what {
        What::Void(reader, _) => *reader >= 1,
        What::Drop(staff, _) => *staff >= 1,
        What::Fill(..) | What::Credit(_) => true,
    }
}

/// Whether each number is in its range.
fn is_in_range(asked: &Asked) -> bool
    ensures { IsTrue result ↔ IsInRange asked.now }
{
    match asked {
        Asked::Tap(tap) => tap.account >= 1 && tap.reader >= 1,
        Asked::Fix(fix) => fix.account >= 1 && fix.staff >= 1 && is_what_in_range(&fix.what),
        Asked::Due { account, day } | Asked::Show { account, day } => *account >= 1 && is_day(*day),
        Asked::Quotes { day, shard, of } => is_day(*day) && *shard < *of && *of <= MOST_SHARDS,
    }
}

impl Command {
    /// A command that asks this, where each number is known to be in its range.
    pub fn new(asked: Asked) -> Command
        requires { IsInRange asked }
        ensures { result ≡ asked }
    {
        Command { asked }
    }

    /// A command that asks this, if each number is in its range: accounts, readers and staff from 1, days from 4 to 50,000,
    /// and a shard among at most 16.
    pub fn of(asked: Asked) -> Option<Command>
        ensures in_range { IsSome result ↔ IsInRange asked }
        ensures same { IfSome result (λ command. command ≡ asked) }
    {
        if is_in_range(&asked) {
            Some(Command::new(asked))
        } else {
            None
        }
    }

    /// What it asks.
    pub fn asked(self) -> Asked
        ensures value { result ≡ self }
        ensures in_range { IsInRange result }
    {
        self.asked
    }
}
