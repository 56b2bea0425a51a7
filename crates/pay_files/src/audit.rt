//! The jobs that look at what journals and a ledger in a file have: `audit` and `rebuild`.

use crate::calendar_date::CalendarDate;
use crate::errors::memory_or;
use crate::input::{fares_text, report_line};
use crate::journal::{JOURNALS, is_new_ledger, path_in, read_journal};
use crate::kept::{KeptFares, file_of, kept_beside, kept_in, noted_beside, noted_in};
use crate::ledgers::Ledgers;
use crate::noted::NotedPosting;
use pay_jobs::{Alter, Audit, Fault, FileFault, Ledger, audit_journals, audit_ledger, rebuilt};
use pay_log::Log;
use pay_words::{AuditWords, RebuildWords};
use std::alloc::AllocError;
use std::fs::File;
use std::io::{ErrorKind, Write};
use std::process::ExitCode;
use std::rt::Files;
use std::{fs, io};

/// All that differs between journals, what is kept beside them and a ledger, all that is not settled, and all that is not closed, to
/// standard output. The status says whether they belong together. No line is added, and nothing is posted.
pub fn audit_files<R, S: Alter + Drop>(rt: &R, words: &AuditWords<'_>) -> Result<ExitCode, Fault>
where
    R: Files<File = File> + Ledgers<InFile = Ledger<S>> + Print + Log + AllocGlobal,
{
    let fares = fares_text(rt, words.fares)?;
    let texts = texts_at(rt, words.journal)?;
    match audit_texts(rt, words, fares.as_str(), texts.as_slice()) {
        Err(Fault::JournalLineOf { journal, line, why }) => {
            let path = path_of(rt, words.journal, journal)?;
            Ok(report_line(rt, path.as_str(), line, why))
        }
        Ok(true) => Ok(ExitCode::SUCCESS),
        Ok(false) => Ok(ExitCode::FAILURE),
        Err(fault) => Err(fault),
    }
}

/// Whether journals are those of a service, in a folder.
fn is_folder<R: Files>(rt: &R, path: &str) -> bool {
    fs::metadata(rt, path).is_ok_and(|found| found.is_dir())
}

/// The bytes of the journal at a path, or of those in a folder: one that a folder does not have is empty, and a folder without any is none
/// of a service.
pub fn texts_at<R: Files + AllocGlobal>(rt: &R, path: &str) -> Result<Vec<Vec<u8>>, Fault> {
    let mut texts: Vec<Vec<u8>> = Vec::new(rt.alloc());
    if !is_folder(rt, path) {
        texts
            .push(read_journal(rt, path)?)
            .map_err(AllocError::from)?;
        return Ok(texts);
    }
    let mut has_any = false;
    for number in 0..u64::from(JOURNALS) {
        let text = text_in(rt, path, number)?;
        has_any = has_any || text.is_some();
        let text = text.unwrap_or_else(|| Vec::new(rt.alloc()));
        texts.push(text).map_err(AllocError::from)?;
    }
    if has_any {
        return Ok(texts);
    }
    Err(Fault::File(FileFault::CannotUseJournal))
}

/// The bytes of the journal of that number in a folder, if it has that one.
fn text_in<R: Files + AllocGlobal>(
    rt: &R,
    folder: &str,
    number: u64,
) -> Result<Option<Vec<u8>>, Fault> {
    let path = path_in(rt.alloc(), folder, number)?;
    match fs::metadata(rt, path.as_str()) {
        Err(error) if error.kind() == ErrorKind::NotFound => Ok(None),
        Err(error) => Err(memory_or(&error, Fault::File(FileFault::CannotUseJournal))),
        Ok(_) => Ok(Some(read_journal(rt, path.as_str())?)),
    }
}

/// The path of the journal of that number.
pub fn path_of<R: Files + AllocGlobal>(rt: &R, path: &str, number: u64) -> Result<String, Fault> {
    if is_folder(rt, path) {
        return Ok(path_in(rt.alloc(), path, number)?);
    }
    let mut file = String::new(rt.alloc());
    file.push_str(path)?;
    Ok(file)
}

/// What is kept beside the journals at a path.
fn kept_at<R: Files + AllocGlobal>(
    rt: &R,
    words: &AuditWords<'_>,
    fares: &str,
) -> Result<KeptFares, Fault> {
    if is_folder(rt, words.journal) {
        return kept_in(rt, words.journal, words.zone, true, fares);
    }
    let file = file_of(rt, words.journal)?;
    kept_beside(rt, file.as_str(), words.zone, true, fares)
}

/// The posting that is noted beside the journals at a path.
fn noted_at<R: Files + AllocGlobal>(rt: &R, path: &str) -> Result<NotedPosting, Fault> {
    if is_folder(rt, path) {
        return noted_in(rt, path);
    }
    let file = file_of(rt, path)?;
    noted_beside(rt, file.as_str())
}

/// Whether journals, what is kept beside them and a ledger belong together.
fn audit_texts<R, S: Alter + Drop>(
    rt: &R,
    words: &AuditWords<'_>,
    fares: &str,
    texts: &[Vec<u8>],
) -> Result<bool, Fault>
where
    R: Files<File = File> + Ledgers<InFile = Ledger<S>> + Print + AllocGlobal,
{
    let kept = kept_at(rt, words, fares)?;
    if let Some(ledger) = words.ledger {
        let noted = noted_at(rt, words.journal)?;
        return audit_in_file(rt, words, fares, texts, kept.other(), ledger, &noted);
    }
    let found = audit_journals(rt.alloc(), fares, words.zone, texts, kept.other())?;
    print_faults(rt, found.as_slice()).map_err(|_| Fault::Output)?;
    Ok(found.is_empty())
}

/// The same with the ledger in the file at a path.
fn audit_in_file<R, S: Alter + Drop>(
    rt: &R,
    words: &AuditWords<'_>,
    fares: &str,
    texts: &[Vec<u8>],
    kept: Option<&str>,
    path: &str,
    noted: &NotedPosting,
) -> Result<bool, Fault>
where
    R: Files<File = File> + Ledgers<InFile = Ledger<S>> + Print + AllocGlobal,
{
    refuse_missing(rt, path)?;
    let (alloc, zone, noted) = (rt.alloc(), words.zone, noted.posting());
    let mut ledger = rt.existing_ledger(path)?;
    let found = audit_ledger(alloc, fares, zone, texts, kept, &mut ledger, noted);
    rt.close(ledger);
    let found = found?;
    print_audit(rt, &found).map_err(|_| Fault::Output)?;
    Ok(found.differences.is_empty())
}

/// Prints what differs.
fn print_faults<R: Print>(rt: &R, faults: &[Fault]) -> io::Result<()> {
    for fault in faults {
        println!(rt; "{fault}")?;
    }
    Ok(())
}

/// Prints what an audit found.
fn print_audit<R: Print>(rt: &R, found: &Audit) -> io::Result<()> {
    print_faults(rt, found.differences.as_slice())?;
    for it in &found.open.unsettled {
        let (account, week, through) = (it.account, it.week, it.through);
        let (due, posted) = (it.due, it.posted);
        let (monday, last) = (CalendarDate(week), CalendarDate(through));
        println!(rt; "UNSETTLED {account} {week} {through} {due} {posted} {monday} {last}")?;
    }
    for (week, accounts) in &found.open.unclosed {
        let monday = CalendarDate(*week);
        println!(rt; "UNCLOSED {week} {accounts} {monday}")?;
    }
    for day in &found.open.closes {
        println!(rt; "CLOSE {day}")?;
    }
    Ok(())
}

/// Refuses a ledger that is not there, or has nothing: its file would be made.
pub fn refuse_missing<R: Files>(rt: &R, path: &str) -> Result<(), Fault> {
    if is_new_ledger(rt, path) {
        return Err(Fault::File(FileFault::NoLedger));
    }
    Ok(())
}

/// The lines of the taps and corrections that a ledger archives, to standard output.
pub fn rebuild_lines<R, S: Alter + Drop>(
    rt: &R,
    words: &RebuildWords<'_>,
) -> Result<ExitCode, Fault>
where
    R: Files<File = File> + Ledgers<InFile = Ledger<S>> + Print + AllocGlobal,
{
    let fares = fares_text(rt, words.fares)?;
    refuse_missing(rt, words.ledger)?;
    let mut ledger = rt.existing_ledger(words.ledger)?;
    let text = rebuilt(rt.alloc(), fares.as_str(), &mut ledger);
    rt.close(ledger);
    match io::writer(rt).write_all(text?.as_slice()) {
        Ok(()) => Ok(ExitCode::SUCCESS),
        Err(_) => Err(Fault::Output),
    }
}
