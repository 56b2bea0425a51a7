//! One session, from standard input to standard output.

use crate::close_watch::CloseWatch;
use crate::input::{fares_text, is_input_a_file, print_warnings};
use crate::journal::{JournalFile, open_journal, ready_ledger};
use crate::kept::{FaresFirst, file_of, kept_beside, noted_beside};
use crate::ledgers::Ledgers;
use crate::noted::NotedPosting;
use pay_jobs::{Alter, Begun, Book, Fault, Keeper, Ledger, NoKeeper, NoWatch, Ran, begin, told};
use pay_ledger_files::new_ledger;
use pay_log::Log;
use pay_words::RunWords;
use std::alloc::AllocError;
use std::fs::File;
use std::io;
use std::io::{BufRead, BufReader};
use std::process::ExitCode;
use std::rt::{Clock, Files};

/// One session, from standard input to standard output. Where it has files, what there is to say of the fare file comes
/// first, to standard error.
pub fn run_session<R, S: Alter + Drop>(rt: &R, words: &RunWords<'_>) -> Result<ExitCode, Fault>
where
    R: Files<File = File>
        + Ledgers<InFile = Ledger<S>>
        + Clock
        + Input
        + Print
        + Log
        + AllocGlobal
        + Copy,
{
    let fares = fares_text(rt, words.fares)?;
    if words.journal.is_some() || words.ledger.is_some() {
        print_warnings(rt, fares.as_str())?;
    }
    let mut input = rt.reader();
    if is_input_a_file(rt) {
        return run_from(rt, words, fares.as_str(), &mut input);
    }
    let mut reader = BufReader::new(rt.alloc(), input).map_err(|_| AllocError)?;
    run_from(rt, words, fares.as_str(), &mut reader)
}

/// One session from a reader, with its journal, or without one.
fn run_from<R, S: Alter + Drop, I: BufRead>(
    rt: &R,
    words: &RunWords<'_>,
    fares: &str,
    reader: &mut I,
) -> Result<ExitCode, Fault>
where
    R: Files<File = File> + Ledgers<InFile = Ledger<S>> + Clock + Print + Log + AllocGlobal + Copy,
{
    match words.journal {
        None => run_unkept(rt, words, fares, reader),
        Some(path) => {
            let journal = open_journal(rt, path)?;
            run_kept(rt, words, fares, path, journal, reader)
        }
    }
}

/// One session without a journal, over a ledger in a file, or in memory.
fn run_unkept<R, S: Alter + Drop, I: BufRead>(
    rt: &R,
    words: &RunWords<'_>,
    fares: &str,
    reader: &mut I,
) -> Result<ExitCode, Fault>
where
    R: Files<File = File> + Ledgers<InFile = Ledger<S>> + Clock + Print + Log + AllocGlobal + Copy,
{
    let begun = begin(rt.alloc(), fares, words.zone, &[])?;
    match words.ledger {
        None => {
            let mut ledger = new_ledger(rt.alloc())?;
            run_in_memory(rt, begun, &mut ledger, reader)
        }
        Some(path) => run_in_file(rt, words, path, begun, NoKeeper, None, reader),
    }
}

/// One session with a journal, over a ledger in a file, if the accounts come to the same by what is kept beside the journal. Without a
/// ledger nothing is closed: what is posted would not be there for the next
/// session, which has the accounts that the journal gives back, and each close would charge the whole week again.
fn run_kept<R, S: Alter + Drop, I: BufRead>(
    rt: &R,
    words: &RunWords<'_>,
    fares: &str,
    path: &str,
    journal: JournalFile,
    reader: &mut I,
) -> Result<ExitCode, Fault>
where
    R: Files<File = File> + Ledgers<InFile = Ledger<S>> + Clock + Print + Log + AllocGlobal + Copy,
{
    let JournalFile { past, file } = journal;
    let begun = begin(rt.alloc(), fares, words.zone, past.as_slice())?;
    let path = file_of(rt, path)?;
    let kept = kept_beside(rt, path.as_str(), words.zone, words.ledger.is_some(), fares)?;
    if let Some(other) = kept.other() {
        begun.compare(rt.alloc(), words.zone, other)?;
    }
    if let Some(ledger) = words.ledger {
        kept.refuse_ledger(rt, ledger)?;
    }
    let keeper = FaresFirst::over(*rt, begun.keeper(file, words.syncs), kept);
    match words.ledger {
        None => end(Ok(begun.run_without_ledger(keeper, reader, &mut io::writer(rt)))),
        Some(ledger) => {
            let noted = noted_beside(rt, path.as_str())?;
            noted.refuse_ledger(rt, ledger)?;
            run_in_file(rt, words, ledger, begun, keeper, Some(noted), reader)
        }
    }
}

/// A session that has begun, over a ledger in memory.
fn run_in_memory<R: Print + AllocGlobal, S: Alter, I: BufRead>(
    rt: &R,
    begun: Begun,
    ledger: &mut Ledger<S>,
    reader: &mut I,
) -> Result<ExitCode, Fault> {
    let mut writer = io::writer(rt);
    let (alloc, watch) = (rt.alloc(), &mut NoWatch);
    end(begun.run(alloc, NoKeeper, ledger, watch, reader, &mut writer))
}

/// A session that has begun, over the ledger in the file at a path, which has the posting that is noted beside the journal.
fn run_in_file<R, S: Alter + Drop, K: Keeper, I: BufRead>(
    rt: &R,
    words: &RunWords<'_>,
    path: &str,
    begun: Begun,
    keeper: K,
    noted: Option<NotedPosting>,
    reader: &mut I,
) -> Result<ExitCode, Fault>
where
    R: Files<File = File> + Ledgers<InFile = Ledger<S>> + Clock + Print + Log + AllocGlobal + Copy,
{
    ready_ledger(rt, path)?;
    let watch = CloseWatch::begin(*rt, words.zone, words.early, noted, None)?;
    let mut ledger = rt.ledger(path)?;
    let status = run_watched(rt, begun, keeper, &mut ledger, watch, reader);
    rt.close(ledger);
    status
}

/// The same with the ledger. The status says whether each close was posted.
fn run_watched<R, K: Keeper, S: Alter, I: BufRead>(
    rt: &R,
    begun: Begun,
    keeper: K,
    ledger: &mut Ledger<S>,
    mut watch: CloseWatch<R>,
    reader: &mut I,
) -> Result<ExitCode, Fault>
where
    R: Files<File = File> + Clock + Print + Log + AllocGlobal + Copy,
{
    watch.take(ledger)?;
    let mut writer = io::writer(rt);
    let ran = begun.run(rt.alloc(), keeper, ledger, &mut watch, reader, &mut writer);
    let status = end(ran)?;
    if watch.has_failed {
        return Ok(ExitCode::FAILURE);
    }
    Ok(status)
}

/// How the program ends after a session.
fn end<K: Keeper>(ran: Result<Ran<Book, K>, Fault>) -> Result<ExitCode, Fault> {
    told(ran?)?;
    Ok(ExitCode::SUCCESS)
}
