//! The job `page`.

use pay_clerks::Clerks;
use pay_files::{Ledgers, fares_text, path_in, print_warnings, refuse_missing};
use pay_jobs::{Alter, Fault, FileFault, Ledger};
use pay_log::{Level, Log};
use pay_page_job::{Given, LooksUp, StaffPort, serve_pages};
use pay_rules::Postings;
use pay_words::PageWords;
use std::alloc::AllocError;
use std::fs;
use std::fs::{File, Metadata};
use std::net::{Net, TcpListener, TcpStream};
use std::os::unix::fs::MetadataExt;
use std::process::ExitCode;
use std::random::RandomSource;
use std::rt::{Clock, Files};
use std::sync::Wait;
use std::thread::Threads;

/// How many journals a service has.
const JOURNALS: u64 = 16;

/// A ledger in the file at a path. It stays open until another file is there, so a copy that takes its place is seen by the next question.
#[derive(Drop)]
struct LedgerAt<R, S: Alter> {
    rt: R,
    path: String,
    open: Option<OpenLedger<S>>,
}

/// A ledger, and what its file was before it was opened, if that could be told.
#[derive(Drop)]
struct OpenLedger<S: Alter> {
    file: Option<Metadata>,
    ledger: Ledger<S>,
}

impl<R, S: Alter + Drop> LedgerAt<R, S>
where
    R: Files<File = File> + Ledgers<InFile = Ledger<S>>,
{
    /// The ledger in the file that is at the path now.
    fn now(&mut self) -> Result<OpenLedger<S>, Fault> {
        refuse_missing(&self.rt, self.path.as_str())?;
        let file = fs::metadata(&self.rt, self.path.as_str()).ok();
        if let Some(open) = self.open.take() {
            if is_same(&open.file, &file) {
                return Ok(open);
            }
            self.rt.close(open.ledger);
        }
        let ledger = self.rt.existing_ledger(self.path.as_str())?;
        Ok(OpenLedger { file, ledger })
    }
}

impl<R, S: Alter + Drop> LooksUp for LedgerAt<R, S>
where
    R: Files<File = File> + Ledgers<InFile = Ledger<S>>,
{
    fn postings(&mut self, account: u32, week: u32) -> Result<Postings, Fault> {
        let mut open = self.now()?;
        // After a fault the next question opens it again.
        let postings = open.ledger.postings(account, week)?;
        self.open = Some(open);
        Ok(postings)
    }
}

/// Whether it is the same file, and nothing was written into it.
fn is_same(old: &Option<Metadata>, new: &Option<Metadata>) -> bool {
    let (Some(old), Some(new)) = (old, new) else {
        return false;
    };
    old.dev() == new.dev()
        && old.ino() == new.ino()
        && old.size() == new.size()
        && old.mtime() == new.mtime()
        && old.mtime_nsec() == new.mtime_nsec()
}

/// Shows why accounts were charged, by the journal at a path or those in a folder, and what a ledger has of it, until the program is ended.
pub fn show_pages<R, S: Alter + Drop>(rt: R, words: &PageWords<'_>) -> Result<ExitCode, Fault>
where
    R: Net<Listener = TcpListener, Stream = TcpStream>
        + Threads
        + Wait
        + Files<File = File>
        + Ledgers<InFile = Ledger<S>>
        + Clock
        + RandomSource
        + Log
        + AllocGlobal
        + Copy
        + Send
        + 'static,
{
    let fares = fares_text(&rt, words.fares)?;
    print_warnings(&rt, fares.as_str())?;
    let (zone, paths) = (text_of(&rt, words.zone)?, paths_at(&rt, words.journal)?);
    let clerks = match words.staff {
        Some(path) => {
            let Some(clerks) = clerks_in(&rt, path) else {
                return Ok(ExitCode::FAILURE);
            };
            Some(clerks)
        }
        None => None,
    };
    let ledger = match words.ledger {
        Some(path) => Some(ledger_at(rt, path)?),
        None => None,
    };
    let given = Given {
        fares,
        zone,
        paths,
        port: words.port,
        service: service_of(&rt, words)?,
        clerks,
    };
    serve_pages(rt, given, ledger)?;
    Ok(ExitCode::SUCCESS)
}

/// The ledger in the file at a path, if there is one that can be read.
fn ledger_at<R, S: Alter + Drop>(rt: R, path: &str) -> Result<LedgerAt<R, S>, Fault>
where
    R: Files<File = File> + Ledgers<InFile = Ledger<S>> + AllocGlobal + Copy,
{
    let path = text_of(&rt, path)?;
    let mut ledger = LedgerAt {
        rt,
        path,
        open: None,
    };
    ledger.open = Some(ledger.now()?);
    Ok(ledger)
}

/// Where a service is asked, if it is.
fn service_of<R: AllocGlobal>(
    rt: &R,
    words: &PageWords<'_>,
) -> Result<Option<StaffPort>, AllocError> {
    let Some(port) = words.control else {
        return Ok(None);
    };
    let greeting = match words.greeting {
        Some(greeting) => Some(text_of(rt, greeting)?),
        None => None,
    };
    Ok(Some(StaffPort { port, greeting }))
}

/// The clerks of the staff file at a path. Why there are none, is said.
fn clerks_in<R: Files + Log + AllocGlobal>(rt: &R, path: &str) -> Option<Clerks> {
    let Ok(text) = fs::read_to_string(rt, path) else {
        rt.say(Level::Error, format_args!("farebox: cannot read staff"));
        return None;
    };
    match Clerks::read(rt.alloc(), text.as_str()) {
        Ok(clerks) => Some(clerks),
        Err(fault) => {
            rt.say(Level::Error, format_args!("farebox: staff file: {fault}"));
            None
        }
    }
}

fn text_of<R: AllocGlobal>(rt: &R, text: &str) -> Result<String, AllocError> {
    let mut copy = String::new(rt.alloc());
    copy.push_str(text)?;
    Ok(copy)
}

/// The paths of the journals: of a folder all that a service may have, of which one has to be there.
fn paths_at<R: Files + AllocGlobal>(rt: &R, path: &str) -> Result<Vec<String>, Fault> {
    let mut paths: Vec<String> = Vec::new(rt.alloc());
    let is_folder = match fs::metadata(rt, path) {
        Ok(found) => found.is_dir(),
        Err(_) => return Err(Fault::File(FileFault::CannotUseJournal)),
    };
    if !is_folder {
        paths.push(text_of(rt, path)?).map_err(AllocError::from)?;
        return Ok(paths);
    }
    let mut has_any = false;
    for number in 0..JOURNALS {
        let journal = path_in(rt.alloc(), path, number)?;
        has_any = has_any || fs::metadata(rt, journal.as_str()).is_ok();
        paths.push(journal).map_err(AllocError::from)?;
    }
    if has_any {
        return Ok(paths);
    }
    Err(Fault::File(FileFault::CannotUseJournal))
}
