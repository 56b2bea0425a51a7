//! The job `explain`.
ghost use Rattle.pay_jobs.specs.Words.{IsDay};

use pay_explain_job::{explain_texts, explain_with_ledger};
use pay_files::{Ledgers, fares_text, path_of, refuse_missing, report_line, texts_at};
use pay_jobs::{Alter, Fault, Ledger};
use pay_log::Log;
use pay_words::ExplainWords;
use std::fs::File;
use std::io;
use std::process::ExitCode;
use std::rt::Files;

/// Why an account's day was charged, or its week through that day, by the journal at a path or by those in a folder, and what a ledger has
/// of that week, to standard output. No line is added, and nothing is posted.
pub fn explain_account<R, S: Alter + Drop>(
    rt: &R,
    words: &ExplainWords<'_>,
) -> Result<ExitCode, Fault>
where
    R: Files<File = File> + Ledgers<InFile = Ledger<S>> + Print + Log + AllocGlobal,
    requires { IsDay words.now.day }
{
    let fares = fares_text(rt, words.fares)?;
    let texts = texts_at(rt, words.journal)?;
    match explain_from(rt, words, fares.as_str(), texts.as_slice()) {
        Err(Fault::JournalLineOf { journal, line, why }) => {
            let path = path_of(rt, words.journal, journal)?;
            Ok(report_line(rt, path.as_str(), line, why))
        }
        Ok(()) => Ok(ExitCode::SUCCESS),
        Err(fault) => Err(fault),
    }
}

/// The same, from the bytes of journals.
fn explain_from<R, S: Alter + Drop>(
    rt: &R,
    words: &ExplainWords<'_>,
    fares: &str,
    texts: &[Vec<u8>],
) -> Result<(), Fault>
where
    R: Files<File = File> + Ledgers<InFile = Ledger<S>> + Print + AllocGlobal,
    requires { IsDay words.now.day }
{
    if let Some(path) = words.ledger {
        return explain_in_file(rt, words, fares, texts, path);
    }
    let (alloc, zone, account) = (rt.alloc(), words.zone, words.account);
    let (day, week, mut writer) = (words.day, words.week, io::writer(rt));
    explain_texts(alloc, fares, zone, texts, account, day, week, &mut writer)
}

/// The same with the ledger in the file at a path.
fn explain_in_file<R, S: Alter + Drop>(
    rt: &R,
    words: &ExplainWords<'_>,
    fares: &str,
    texts: &[Vec<u8>],
    path: &str,
) -> Result<(), Fault>
where
    R: Files<File = File> + Ledgers<InFile = Ledger<S>> + Print + AllocGlobal,
    requires { IsDay words.now.day }
{
    refuse_missing(rt, path)?;
    let (alloc, zone, account) = (rt.alloc(), words.zone, words.account);
    let (day, week, mut writer) = (words.day, words.week, io::writer(rt));
    let mut ledger = rt.existing_ledger(path)?;
    let done = explain_with_ledger(
        alloc,
        fares,
        zone,
        texts,
        account,
        day,
        week,
        &mut ledger,
        &mut writer,
    );
    rt.close(ledger);
    done
}
