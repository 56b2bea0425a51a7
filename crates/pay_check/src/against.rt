//! Whether a fare file prices the days as an old one does.
ghost use Rattle.std.specs.Prelude.{◌≡◌, ◌-◌, ◌≤◌, ◌<◌, IfOk, IfErr, IfSome, OnOk};
ghost use Rattle.pay_day.specs.Words.{IsDay};
ghost use Rattle.pay_day.specs.declared.limits.TheConstants.{FIRST_DAY};
ghost use Rattle.pay_compare.specs.Words.{AgreeThrough};
ghost use Rattle.pay_wire.specs.Words.{IsFlushed, HasFault};
ghost use Rattle.pay_check.specs.Against.{AgainstEnds, AgainstFails, AreAlike, AreRead, AreUnlike, IsNotRead, IsOther, last_of};

use crate::fault::CheckFault;
use crate::output::write_text;
use pay_compare::{Difference, first_difference};
use pay_day::limits::LAST_DAY;
use pay_editions::read_editions;
use pay_tables::Editions;
use pay_wire::KnownWriter;
use std::alloc::Global;

/// Writes `OK` as a line and flushes the writer, if the fare file of a text prices each day as that of the old text does: each
/// up to a day, counted from 1970-01-01, or each that there may be. The fare file is read before the old one.
pub fn check_against<W: KnownWriter>(
    alloc: Global,
    fares: &str,
    old: &str,
    after: Option<u32>,
    writer: &mut W,
) -> Result<(), CheckFault>
    requires { IfSome after IsDay }
    ensures ends { OnOk result (AgainstEnds (fares.now, old.now) (last_of after) (W.contents writer.old) (W.contents writer.new)) }
    ensures fails { IfErr result (λ fault. AgainstFails fault (fares.now, old.now) (last_of after) (W.contents writer.old, W.contents writer.new)) }
    ensures flushed { OnOk result (IsFlushed W.MayAnswer writer.new) }
    ensures cause { IfErr result (λ fault. fault ≡ CheckFault.Output → HasFault W.MayAnswer writer.new) }
{
    compare(alloc, fares, old, last_of(after))?;
    write_text(writer, b"OK\n")
}

/// That the fare file of a text prices each day up to one as that of an old text does, or why not.
fn compare(alloc: Global, fares: &str, old: &str, last: u32) -> Result<(), CheckFault>
    requires { IsDay last }
    ensures ok { OnOk result (AreAlike (fares.now, old.now) last) }
    ensures unlike { IfErr result (AreUnlike (fares.now, old.now) last) }
{
    let (fares, old) = both(alloc, fares, old)?;
    agreement(&fares, &old, last)
}

/// The last day that has to be priced alike.
fn last_of(after: Option<u32>) -> u32
    ensures { result ≡ last_of after }
{
    match after {
        Some(day) => day,
        None => LAST_DAY,
    }
}

/// The fare files of two texts.
fn both(alloc: Global, fares: &str, old: &str) -> Result<(Editions, Editions), CheckFault>
    ensures ok { IfOk result (λ files. AreRead (fares.now, old.now) files.0 files.1) }
    ensures refused { IfErr result (IsNotRead (fares.now, old.now)) }
{
    let fares = read_editions(alloc, fares)?;
    match read_editions(alloc, old) {
        Ok(old) => Ok((fares, old)),
        Err(fault) => Err(CheckFault::OldRefused(fault)),
    }
}

/// That a fare file prices each day up to one as an old one does, or the first that it does not.
fn agreement(fares: &Editions, old: &Editions, last: u32) -> Result<(), CheckFault>
    requires { IsDay last }
    ensures ok { OnOk result (AgreeThrough fares.now old.now last) }
    ensures other { IfErr result (IsOther fares.now old.now last) }
{
    match first_difference(fares, old) {
        Some(first) => unless_later(first, last),
        None => Ok(()),
    }
}

/// That a difference comes after the last day that has to be priced alike, or what it is.
fn unless_later(first: Difference, last: u32) -> Result<(), CheckFault>
    requires { FIRST_DAY ≤ first.day }
    ensures later { OnOk result (last < first.day) }
    ensures other { IfErr result (λ fault. (first.day ≤ last) × (fault ≡ CheckFault.OtherFares first.day first.key (first.day - 1))) }
{
    if last < first.day {
        return Ok(());
    }
    Err(CheckFault::OtherFares {
        day: first.day,
        key: first.key,
        last_alike: first.day - 1,
    })
}
