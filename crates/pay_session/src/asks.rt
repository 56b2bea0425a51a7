//! What requests come to: commands of a desk, closes, and what is answered at once.
ghost use Rattle.std.specs.Prelude.{◌≡◌, IfOk};
ghost use Rattle.pay_shard.specs.Words.{IsInRange};
ghost use Rattle.pay_wire.specs.declared.command.SpelledWhat.{SpelledWhat};
ghost use Rattle.pay_wire.specs.Words.{IsSpelled, IsSpelledTap, IsSpelledFix};
ghost use Rattle.pay_session.specs.Asks.{asks_of, asks_command, asks_tap, asks_fix, what_of_spelled, IsAskable, IsOfAccount};
ghost use Rattle.pay_session.specs.Requests.{IsAsked};

use crate::request::Request;
use pay_day::StampFault;
use pay_rules::{Credit, Fix, Tap, What};
use pay_shard::{Asked, Command};
use pay_wire::{Refusal, SpelledCommand, SpelledFix, SpelledTap, SpelledWhat};
use pay_zone::Zone;

/// What a request comes to.
#[derive(Clone, Copy)]
pub enum Asks {
    /// A desk's command.
    Put(Command),
    /// The close of a service day.
    Close(u32),
    /// The end of the session.
    Quit,
    /// Nothing: the request is refused.
    No(Refusal),
}

/// What a request comes to in a zone.
#[tactic(auto, unfolding(crate::specs::Asks::asks_of))]
pub fn asks_of(zone: &Zone<'_>, request: Request) -> Asks
    requires { IsAsked request }
    ensures value { result ≡ asks_of zone.now request }
    ensures askable { IsAskable result }
{
    match request {
        Request::Command(command) => asks_command(zone, command),
        Request::BadLine => Asks::No(Refusal::BadLine),
        Request::LongLine => Asks::No(Refusal::LongLine),
    }
}

fn asks_command(zone: &Zone<'_>, command: SpelledCommand) -> Asks
    requires { IsSpelled command }
    ensures value { result ≡ asks_command zone.now command }
    ensures askable { IsAskable result }
{
    match command {
        SpelledCommand::Tap(line) => asks_tap(zone, line),
        SpelledCommand::Fix(line) => asks_fix(zone, line),
        SpelledCommand::Due { account, day } => put(Asked::Due { account, day }),
        SpelledCommand::Show { account, day } => put(Asked::Show { account, day }),
        SpelledCommand::Close { day } => Asks::Close(day),
        SpelledCommand::Quit => Asks::Quit,
    }
}

/// A desk's command, whose numbers are in their ranges.
fn put(asked: Asked) -> Asks
    requires in_range { IsInRange asked }
    requires of_account { IsOfAccount asked }
    ensures value { result ≡ Asks.Put asked }
    ensures askable { IsAskable result }
{
    Asks::Put(Command::new(asked))
}

fn asks_tap(zone: &Zone<'_>, line: SpelledTap) -> Asks
    requires { IsSpelledTap line }
    ensures value { result ≡ asks_tap zone.now line }
    ensures askable { IsAskable result }
{
    let stamp = match zone.stamp(line.utc) {
        Ok(stamp) => stamp,
        Err(StampFault::OutOfTime) => return Asks::No(Refusal::OutOfTime),
        Err(StampFault::Memory) => return Asks::No(Refusal::Memory),
    };
    put(Asked::Tap(Tap {
        account: line.account,
        reader: line.reader,
        seq: line.seq,
        stamp,
        place: line.place,
        kind: line.kind,
    }))
}

/// What a line's correction does, with where the instant of a Fill falls.
fn what_of(zone: &Zone<'_>, spelled: SpelledWhat) -> Result<What, Refusal>
    ensures { result ≡ what_of_spelled zone.now spelled }
{
    match spelled {
        SpelledWhat::Void(reader, seq) => Ok(What::Void(reader, seq)),
        SpelledWhat::Fill { utc, place, kind } => match zone.stamp(utc) {
            Ok(stamp) => Ok(What::Fill(stamp, place, kind)),
            Err(StampFault::OutOfTime) => Err(Refusal::OutOfTime),
            Err(StampFault::Memory) => Err(Refusal::Memory),
        },
        SpelledWhat::Credit(credit) => match Credit::from_parts(credit.day, credit.pence) {
            Some(credit) => Ok(What::Credit(credit)),
            None => Err(Refusal::BadLine),
        },
        SpelledWhat::Drop(staff, seq) => Ok(What::Drop(staff, seq)),
    }
}

fn asks_fix(zone: &Zone<'_>, line: SpelledFix) -> Asks
    requires { IsSpelledFix line }
    ensures value { result ≡ asks_fix zone.now line }
    ensures askable { IsAskable result }
{
    match what_of(zone, line.what) {
        Ok(what) => put(Asked::Fix(Fix {
            account: line.account,
            staff: line.staff,
            seq: line.seq,
            what,
        })),
        Err(why) => Asks::No(why),
    }
}
