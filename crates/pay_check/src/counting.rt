//! How many of each thing a fare file has.
ghost use Rattle.std.specs.Prelude.{◌≡◌, ◌++◌, ◌∷◌, decimal, IfOk, IfErr, OnOk};
ghost use Rattle.std.specs.String.{string_bytes};
ghost use Rattle.pay_check.specs.Counting.{CheckEnds, CheckFails, IsCounted, IsRefused, counts_line, editions_words};
ghost use Rattle.pay_wire.specs.Words.{IsFlushed, HasFault};

use crate::fault::CheckFault;
use crate::output::write_text;
use pay_editions::read_editions;
use pay_tables::Counts;
use pay_wire::KnownWriter;
use std::alloc::{AllocError, Global};

/// Writes how many of each thing the fare file of a text has, and how many editions, as one line, and flushes the
/// writer.
pub fn check_text<W: KnownWriter>(
    alloc: Global,
    fares: &str,
    writer: &mut W,
) -> Result<(), CheckFault>
    ensures ends { OnOk result (CheckEnds fares.now (W.contents writer.old) (W.contents writer.new)) }
    ensures fails { IfErr result (λ fault. CheckFails fault fares.now (W.contents writer.old) (W.contents writer.new)) }
    ensures flushed { OnOk result (IsFlushed W.MayAnswer writer.new) }
    ensures cause { IfErr result (λ fault. fault ≡ CheckFault.Output → HasFault W.MayAnswer writer.new) }
{
    let line = counted(alloc, fares)?;
    write_text(writer, line.as_str().as_bytes())
}

/// The line of the fare file that a text says.
fn counted(alloc: Global, fares: &str) -> Result<String, CheckFault>
    ensures counted { IfOk result (λ line. IsCounted fares.now (string_bytes line)) }
    ensures refused { IfErr result (λ fault. IsRefused fault fares.now) }
{
    let editions = read_editions(alloc, fares)?;
    let line = counts_line(alloc, editions.own().counts(), editions.items())?;
    Ok(line)
}

/// The counts as a line, newline included.
fn counts_line(alloc: Global, counts: Counts, editions: usize) -> Result<String, AllocError>
    ensures { IfOk result (λ line. string_bytes line ≡ counts_line counts editions) }
{
    let mut line = String::new(alloc);
    put(&mut line, "OK places", counts.places)?;
    put(&mut line, " bands", counts.bands)?;
    put(&mut line, " interchanges", counts.interchanges)?;
    put(&mut line, " holidays", counts.holidays)?;
    put_editions(&mut line, editions)?;
    line.push_str("\n")?;
    Ok(line)
}

/// Puts how many editions there are at the end of a line, where there are any.
fn put_editions(line: &mut String, editions: usize) -> Result<(), AllocError>
    ensures { OnOk result (string_bytes line.new ≡ string_bytes line.old ++ editions_words editions) }
{
    if editions == 0 {
        return Ok(());
    }
    put(line, " editions", editions)
}

/// Puts a name, a space and a number at the end of a line.
fn put(line: &mut String, name: &str, number: usize) -> Result<(), AllocError>
    ensures { OnOk result (string_bytes line.new ≡ string_bytes line.old ++ (name.now ++ 32 ∷ decimal number)) }
{
    write!(line, "{name} {number}")
}
