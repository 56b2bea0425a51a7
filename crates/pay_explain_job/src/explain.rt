//! The job `explain`, by the texts of its fare file, its zone and its journals: all that the program does below the reading of files.
ghost use Rattle.std.specs.Prelude.{◌≡◌, ◌++◌, map as each, vec_items, IfOk, IfErr, OnOk, OnErr};
ghost use Rattle.std.specs.Io.KnownBytes.{Appends};
ghost use Rattle.std.specs.String.{string_bytes};
ghost use Rattle.pay_day.specs.Words.{IsDay};
ghost use Rattle.pay_ledger.specs.Words.{ChangesNothing};
ghost use Rattle.pay_records.specs.Words.{LeavesAsBefore};
ghost use Rattle.pay_names.specs.Words.{called_in_text};
ghost use Rattle.pay_wire.specs.Words.{AppendsFront, IsFlushed, HasFault};
ghost use Rattle.pay_explain_job.specs.Accounts.{given, told};
ghost use Rattle.pay_explain_job.specs.Explain.{text_of, IsUnexplained, ExplainWritten, ExplainRefused, query};
ghost use Rattle.pay_explain_job.specs.PostedLines.{posted_text};
ghost use Rattle.pay_explain_job.specs.Postings.{IsExplainedAt, IsWhole, IsUntold, Writes, Stops, Keeps};

use crate::accounts::Account;
use crate::own::own_account;
use crate::posted::posted_text;
use crate::texts::text_of;
use pay_day::monday;
use pay_jobs::Fault;
use pay_ledger::Ledger;
use pay_names::Names;
use pay_rules::Posting;
use pay_wire::{KnownWriter, send_line};
use sqlite::Alter;
use std::alloc::{AllocError, Global};

/// Why an account was charged, as text; the version that it has by its journals: how many taps and corrections it has accepted; and the
/// names of operators.
#[derive(Drop)]
struct Explanation {
    text: String,
    version: usize,
    operators: Names,
}

/// Writes why a service day of an account was charged, counted from 1970-01-01, or its week through that day: by what the account has
/// accepted of its own lines in journals, which are given as texts. A line that is neither a tap nor a correction is found first; then the
/// fare file is read, then the zone, and the account's lines are replayed, one journal after the other. A line that is not accepted is told
/// by its number in its journal, and by that of the journal, from 0 on; then nothing is written. Places have the names that the fare file
/// gives them.
pub fn explain_texts<W: KnownWriter>(
    alloc: Global,
    fares: &str,
    zone: &str,
    texts: &[Vec<u8>],
    account: u32,
    day: u32,
    week: bool,
    writer: &mut W,
) -> Result<(), Fault>
    requires { IsDay day }
    ensures ends { OnOk result (ExplainWritten (given fares.now zone.now (each vec_items texts.now)) (query account day week) (W.contents writer.old) (W.contents writer.new)) }
    ensures fails { IfErr result (ExplainRefused (given fares.now zone.now (each vec_items texts.now)) (query account day week) (W.contents writer.old) (W.contents writer.new)) }
    ensures flushed { OnOk result (IsFlushed W.MayAnswer writer.new) }
    ensures cause { IfErr result (λ fault. fault ≡ Fault.Output → HasFault W.MayAnswer writer.new) }
{
    let explanation = explained(alloc, fares, zone, texts, account, day, week)?;
    write_text(writer, explanation.text.as_str().as_bytes())
}

/// Writes the same, and below it what a ledger has of the account and the week of that day, beside the version that the account has by
/// its journals. The ledger is read first of all, and only read.
pub fn explain_with_ledger<W: KnownWriter, S: Alter>(
    alloc: Global,
    fares: &str,
    zone: &str,
    texts: &[Vec<u8>],
    account: u32,
    day: u32,
    week: bool,
    ledger: &mut Ledger<S>,
    writer: &mut W,
) -> Result<(), Fault>
    requires { IsDay day }
    ensures ends { OnOk result (Writes W.contents (IsWhole S.Store ledger.old ledger.new (given fares.now zone.now (each vec_items texts.now)) (query account day week)) writer.old writer.new) }
    ensures stops { IfErr result (Stops W.contents (IsWhole S.Store ledger.old ledger.new (given fares.now zone.now (each vec_items texts.now)) (query account day week)) writer.old writer.new) }
    ensures fails { IfErr result (Keeps W.contents (IsUntold S.Store ledger.old ledger.new (given fares.now zone.now (each vec_items texts.now)) (query account day week)) writer.old writer.new) }
    ensures flushed { OnOk result (IsFlushed W.MayAnswer writer.new) }
    ensures cause { IfErr result (λ fault. fault ≡ Fault.Output → HasFault W.MayAnswer writer.new) }
    ensures unchanged { ChangesNothing S.Store ledger.old ledger.new }
    ensures survives { LeavesAsBefore S.Store ledger.old ledger.new }
{
    let from = monday(day);
    let postings = ledger.postings(account, from)?;
    let explanation = explained(alloc, fares, zone, texts, account, day, week)?;
    let text = with_posted(alloc, explanation, from, postings.as_slice())?;
    write_text(writer, text.as_str().as_bytes())
}

/// A text with that of what was posted below it. `week` is the Monday of the week.
fn with_posted(
    alloc: Global,
    explanation: Explanation,
    week: u32,
    postings: &[Posting],
) -> Result<String, AllocError>
    requires { IsDay week }
    ensures { IfOk result (λ text. string_bytes text ≡ string_bytes explanation.text ++ posted_text explanation.operators week explanation.version postings.now) }
{
    let Explanation {
        text,
        version,
        operators,
    } = explanation;
    let below = posted_text(alloc, &operators, week, postings, version)?;
    let mut text = text;
    text.push_str(below.as_str())?;
    Ok(text)
}

/// Writes a text of whole lines and flushes the writer. Where that fails, it has taken a front of the text.
pub fn write_text<W: KnownWriter>(writer: &mut W, text: &[u8]) -> Result<(), Fault>
    ensures ok { OnOk result (Appends (W.contents writer.old) (W.contents writer.new) text.now) }
    ensures err { OnErr result (AppendsFront (W.contents writer.old) (W.contents writer.new) text.now) }
    ensures fault { IfErr result (λ fault. fault ≡ Fault.Output) }
    ensures flushed { OnOk result (IsFlushed W.MayAnswer writer.new) }
    ensures cause { OnErr result (HasFault W.MayAnswer writer.new) }
{
    match send_line(writer, text) {
        Ok(()) => Ok(()),
        Err(_) => Err(Fault::Output),
    }
}

/// The text of the day or the week, and the account's version.
fn explained(
    alloc: Global,
    fares: &str,
    zone: &str,
    texts: &[Vec<u8>],
    account: u32,
    day: u32,
    week: bool,
) -> Result<Explanation, Fault>
    requires { IsDay day }
    ensures explained { IfOk result (λ it. IsExplainedAt (given fares.now zone.now (each vec_items texts.now)) (query account day week) it.version (string_bytes it.text)) }
    ensures operators { IfOk result (λ it. it.operators ≡ (called_in_text fares.now).operators) }
    ensures fails { IfErr result (IsUnexplained (given fares.now zone.now (each vec_items texts.now)) account) }
{
    let accepted = own_account(alloc, fares, zone, texts, account)?;
    let text = text_by(alloc, &accepted, account, day, week)?;
    Ok(Explanation {
        text,
        version: accepted.version,
        operators: accepted.called.operators,
    })
}

/// The text by what the account has accepted.
fn text_by(
    alloc: Global,
    accepted: &Account,
    account: u32,
    day: u32,
    week: bool,
) -> Result<String, AllocError>
    requires { IsDay day }
    ensures { IfOk result (λ text. string_bytes text ≡ told (text_of (query account day week)) accepted.now) }
{
    let Account {
        called,
        editions,
        taps,
        fixes,
        ..
    } = accepted;
    text_of(
        alloc,
        &called.places,
        called.currency.as_str(),
        editions,
        taps,
        fixes,
        account,
        day,
        week,
    )
}
