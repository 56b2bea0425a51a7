//! The jobs that only read accounts: `statement` and `replay`.
ghost use Rattle.pay_jobs.specs.Words.{IsDay};

use crate::input::{fares_text, is_input_a_file, report_line};
use crate::journal::read_journal;
use pay_jobs::{Fault, replay_texts, statement_texts};
use pay_log::Log;
use pay_words::{ReplayWords, StatementWords};
use std::alloc::AllocError;
use std::io;
use std::io::{BufRead, BufReader};
use std::process::ExitCode;
use std::rt::Files;

/// How the program ends after such a job.
fn ended(done: Result<(), Fault>) -> Result<ExitCode, Fault> {
    match done {
        Ok(()) => Ok(ExitCode::SUCCESS),
        Err(fault) => Err(fault),
    }
}

/// The statement of an account's week by the lines of a journal and of standard input, to standard output.
pub fn write_statement<R: Files + Input + Print + AllocGlobal>(
    rt: &R,
    words: &StatementWords<'_>,
) -> Result<ExitCode, Fault>
    requires { IsDay words.now.day }
{
    let fares = fares_text(rt, words.fares)?;
    let past = match words.journal {
        None => Vec::new(rt.alloc()),
        Some(path) => read_journal(rt, path)?,
    };
    state_from(rt, words, fares.as_str(), past.as_slice())
}

/// The same, from standard input.
fn state_from<R: Files + Input + Print + AllocGlobal>(
    rt: &R,
    words: &StatementWords<'_>,
    fares: &str,
    past: &[u8],
) -> Result<ExitCode, Fault>
    requires { IsDay words.now.day }
{
    let mut input = rt.reader();
    if is_input_a_file(rt) {
        return state_by(rt, words, fares, past, &mut input);
    }
    let mut reader = BufReader::new(rt.alloc(), input).map_err(|_| AllocError)?;
    state_by(rt, words, fares, past, &mut reader)
}

/// The same, from a reader.
fn state_by<R: Print + AllocGlobal, I: BufRead>(
    rt: &R,
    words: &StatementWords<'_>,
    fares: &str,
    past: &[u8],
    reader: &mut I,
) -> Result<ExitCode, Fault>
    requires { IsDay words.now.day }
{
    let (alloc, zone, account, day) = (rt.alloc(), words.zone, words.account, words.day);
    let mut writer = io::writer(rt);
    ended(statement_texts(alloc, fares, zone, past, account, day, reader, &mut writer))
}

/// How much the journals at these paths have, to standard output.
pub fn replay_journals<R: Files + Print + Log + AllocGlobal>(
    rt: &R,
    words: &ReplayWords<'_>,
) -> Result<ExitCode, Fault> {
    let fares = fares_text(rt, words.fares)?;
    let texts = read_journals(rt, words)?;
    let done = replay_texts(
        rt.alloc(),
        fares.as_str(),
        words.zone,
        texts.as_slice(),
        &mut io::writer(rt),
    );
    match done {
        Err(Fault::JournalLineOf { journal, line, why }) => {
            Ok(report_line(rt, path_of(words, journal), line, why))
        }
        done => ended(done),
    }
}

/// The bytes of the journals at these paths.
fn read_journals<R: Files + AllocGlobal>(
    rt: &R,
    words: &ReplayWords<'_>,
) -> Result<Vec<Vec<u8>>, Fault> {
    let mut texts: Vec<Vec<u8>> = Vec::new(rt.alloc());
    for path in &words.files {
        texts
            .push(read_journal(rt, path)?)
            .map_err(AllocError::from)?;
    }
    Ok(texts)
}

/// The path of a journal by its number, from 1.
fn path_of<'a>(words: &ReplayWords<'a>, journal: u64) -> &'a str {
    match words.files.get(journal.saturating_sub(1) as usize) {
        Some(path) => path,
        None => "",
    }
}
