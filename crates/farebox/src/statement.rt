//! The job `statement`, in its long form too.
ghost use Rattle.pay_jobs.specs.Words.{IsDay};

use pay_explain_job::{statement_by_texts, statement_with_ledger, write_text};
use pay_files::{
    Ledgers, fares_text, path_of, refuse_missing, report_line, texts_at, write_statement,
};
use pay_jobs::{Alter, Fault, Ledger};
use pay_log::Log;
use pay_words::StatementWords;
use std::fs::File;
use std::io;
use std::process::ExitCode;
use std::rt::Files;

/// The statement of an account's week, to standard output: by a journal and standard input, or the long one.
pub fn state_account<R, S: Alter + Drop>(
    rt: &R,
    words: &StatementWords<'_>,
) -> Result<ExitCode, Fault>
where
    R: Files<File = File> + Ledgers<InFile = Ledger<S>> + Input + Print + Log + AllocGlobal,
    requires { IsDay words.now.day }
{
    match words.journal {
        Some(path) if words.long => state_long(rt, words, path),
        _ => write_statement(rt, words),
    }
}

/// The long statement, by the journal at a path or by those in a folder, with what a ledger has of the week. No line is added, and
/// nothing is posted.
fn state_long<R, S: Alter + Drop>(
    rt: &R,
    words: &StatementWords<'_>,
    path: &str,
) -> Result<ExitCode, Fault>
where
    R: Files<File = File> + Ledgers<InFile = Ledger<S>> + Print + Log + AllocGlobal,
    requires { IsDay words.now.day }
{
    let fares = fares_text(rt, words.fares)?;
    let texts = texts_at(rt, path)?;
    match state_from(rt, words, fares.as_str(), texts.as_slice()) {
        Err(Fault::JournalLineOf { journal, line, why }) => {
            let path = path_of(rt, path, journal)?;
            Ok(report_line(rt, path.as_str(), line, why))
        }
        Ok(()) => Ok(ExitCode::SUCCESS),
        Err(fault) => Err(fault),
    }
}

/// The same, from the bytes of journals.
fn state_from<R, S: Alter + Drop>(
    rt: &R,
    words: &StatementWords<'_>,
    fares: &str,
    texts: &[Vec<u8>],
) -> Result<(), Fault>
where
    R: Files<File = File> + Ledgers<InFile = Ledger<S>> + Print + AllocGlobal,
    requires { IsDay words.now.day }
{
    let (alloc, zone, account, day) = (rt.alloc(), words.zone, words.account, words.day);
    let text = match words.ledger {
        Some(path) => statement_in_file(rt, words, fares, texts, path)?,
        None => statement_by_texts(alloc, fares, zone, texts, account, day, &[])?,
    };
    let mut writer = io::writer(rt);
    write_text(&mut writer, &text)
}

/// The text with the ledger in the file at a path.
fn statement_in_file<R, S: Alter + Drop>(
    rt: &R,
    words: &StatementWords<'_>,
    fares: &str,
    texts: &[Vec<u8>],
    path: &str,
) -> Result<Vec<u8>, Fault>
where
    R: Files<File = File> + Ledgers<InFile = Ledger<S>> + AllocGlobal,
    requires { IsDay words.now.day }
{
    refuse_missing(rt, path)?;
    let (alloc, zone, account, day) = (rt.alloc(), words.zone, words.account, words.day);
    let mut ledger = rt.existing_ledger(path)?;
    let text = statement_with_ledger(alloc, fares, zone, texts, account, day, &mut ledger);
    rt.close(ledger);
    text
}
