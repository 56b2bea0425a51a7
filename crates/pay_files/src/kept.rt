//! The fare file and the zone that are kept beside a journal, as a file.
ghost use Rattle.std.specs.Prelude.{◌≡◌, true, OnErr};

use crate::errors::memory_or;
use crate::journal::{ASIDE, OWNER_ALONE, is_new_ledger, refuse_ledger_at, settle_folder_of};
use crate::noted::NotedPosting;
use pay_jobs::{Command, Fault, FileFault, Keeper, NotKept, has_ledger, kept_text};
use pay_log::{Level, Log};
use std::alloc::{AllocError, Global};
use std::fs::{File, Files, OpenOptions};
use std::io::{ErrorKind, Write};
use std::os::unix::fs::OpenOptionsExt;
use std::{fs, io};

/// What is kept beside a journal, and what is to be kept there.
#[derive(Drop)]
pub struct KeptFares {
    /// The path of its file.
    path: String,
    /// The text that stands there, if one does.
    there: Option<String>,
    /// Whether that says that a session had a ledger.
    had_ledger: bool,
    /// The text by which lines are accepted from now on.
    text: String,
    /// Whether the session has a ledger.
    closes: bool,
}

impl KeptFares {
    /// What is kept at a path, and this fare file and zone. Once a session had a ledger in a file, that is kept for good.
    fn read<R: Files + AllocGlobal>(
        rt: &R,
        path: String,
        zone: &str,
        closes: bool,
        fares: &str,
    ) -> Result<KeptFares, Fault> {
        let there = match text_at(rt, path.as_str()) {
            Ok(there) => there,
            Err(error) => {
                let fault = Fault::File(FileFault::CannotReadKeptFares);
                return Err(memory_or(&error, fault));
            }
        };
        let had_ledger = match &there {
            Some(there) => has_ledger(there.as_str(), zone),
            None => false,
        };
        let text = kept_text(rt.alloc(), zone, closes || had_ledger, fares)?;
        Ok(KeptFares {
            path,
            there,
            had_ledger,
            text,
            closes,
        })
    }

    /// What is kept there, if it is another text.
    pub fn other(&self) -> Option<&str> {
        match &self.there {
            Some(there) if *there != self.text => Some(there.as_str()),
            _ => None,
        }
    }

    /// Refuses a ledger in the place of what is kept, and one that is new where the journal had one: it has nothing of what was charged.
    pub fn refuse_ledger<R: Files + AllocGlobal>(&self, rt: &R, ledger: &str) -> Result<(), Fault> {
        refuse_ledger_at(rt, ledger, self.path.as_str())?;
        if self.had_ledger && is_new_ledger(rt, ledger) {
            return Err(Fault::File(FileFault::NewLedger));
        }
        Ok(())
    }

    /// Keeps this fare file and zone, unless they are kept: beside the journals of a service, before it takes a port.
    pub fn keep<R: Files<File = File> + Log + AllocGlobal>(&self, rt: &R) -> Result<(), Fault> {
        if self.is_there() {
            return Ok(());
        }
        let path = self.path.as_str();
        match replace(rt, path, self.text.as_str()) {
            Ok(()) => Ok(()),
            Err(_) => {
                rt.say(
                    Level::Error,
                    format_args!("farebox: cannot keep fares in {path}"),
                );
                Err(Fault::Journal)
            }
        }
    }

    /// Whether it is kept there already.
    pub fn is_there(&self) -> bool {
        match &self.there {
            Some(there) => *there == self.text,
            None => false,
        }
    }
}

/// The text of the file at a path, if there is one. What is no file is not opened, since that could wait for another program.
pub(crate) fn text_at<R: Files + AllocGlobal>(rt: &R, path: &str) -> io::Result<Option<String>> {
    match read_text(rt, path) {
        Ok(text) => Ok(Some(text)),
        Err(error) if error.kind() == ErrorKind::NotFound => Ok(None),
        Err(error) => Err(error),
    }
}

fn read_text<R: Files + AllocGlobal>(rt: &R, path: &str) -> io::Result<String> {
    if !fs::metadata(rt, path)?.is_file() {
        return Err(io::Error::from(ErrorKind::InvalidInput));
    }
    fs::read_to_string(rt, path)
}

/// The path of the file of a journal that is there, also where a link leads to it.
pub fn file_of<R: Files + AllocGlobal>(rt: &R, journal: &str) -> Result<String, Fault> {
    match fs::canonicalize(rt, journal) {
        Ok(file) => Ok(copy_of(rt.alloc(), file.as_str())?),
        Err(error) => Err(memory_or(&error, Fault::File(FileFault::CannotUseJournal))),
    }
}

/// The posting that is noted beside the file of a journal.
pub fn noted_beside<R: Files + AllocGlobal>(rt: &R, file: &str) -> Result<NotedPosting, Fault> {
    let mut path = copy_of(rt.alloc(), file)?;
    path.push_str(".posted")?;
    NotedPosting::read(rt, path)
}

/// The posting that is noted beside the journals in a folder.
pub fn noted_in<R: Files + AllocGlobal>(rt: &R, folder: &str) -> Result<NotedPosting, Fault> {
    let mut path = String::new(rt.alloc());
    write!(path, "{folder}/all.posted")?;
    NotedPosting::read(rt, path)
}

/// What is kept beside the file of a journal.
pub fn kept_beside<R: Files + AllocGlobal>(
    rt: &R,
    file: &str,
    zone: &str,
    closes: bool,
    fares: &str,
) -> Result<KeptFares, Fault> {
    let mut path = copy_of(rt.alloc(), file)?;
    path.push_str(".fares")?;
    KeptFares::read(rt, path, zone, closes, fares)
}

/// What is kept beside the journals in a folder.
pub fn kept_in<R: Files + AllocGlobal>(
    rt: &R,
    folder: &str,
    zone: &str,
    closes: bool,
    fares: &str,
) -> Result<KeptFares, Fault> {
    let mut path = String::new(rt.alloc());
    write!(path, "{folder}/all.fares")?;
    KeptFares::read(rt, path, zone, closes, fares)
}

/// Puts a text in the place of what a file has. A crash leaves the one or the other.
pub(crate) fn replace<R: Files<File = File> + AllocGlobal>(
    rt: &R,
    path: &str,
    text: &str,
) -> io::Result<()> {
    let mut aside = copy_of(rt.alloc(), path)?;
    aside.push_str(ASIDE)?;
    // What a crash left there goes. Another's link in its place is not followed.
    let _ = fs::remove_file(rt, aside.as_str());
    let mut file = OpenOptions::new()
        .write(true)
        .create_new(true)
        .mode(OWNER_ALONE)
        .open(rt, aside.as_str())?;
    file.write_all(text.as_bytes())?;
    file.sync_all()?;
    fs::rename(rt, aside.as_str(), path)?;
    settle_folder_of(rt, path)
}

/// Keeps what a keeper does; and before its first line the fare file and the zone by which it is accepted, if others stand beside the
/// journal, or none. With a ledger that comes before it is settled too, as for a close.
#[derive(Drop)]
pub struct FaresFirst<K, R> {
    keeper: K,
    rt: R,
    fares: KeptFares,
    is_kept: bool,
    has_failed: bool,
}

impl<K: Keeper, R: Files<File = File> + Log + AllocGlobal + Copy> FaresFirst<K, R> {
    /// The keeper of the lines of one journal, so that it keeps the fare file and the zone first.
    pub fn over(rt: R, keeper: K, fares: KeptFares) -> FaresFirst<K, R>
        ensures { result.keeper ≡ keeper }
    {
        let is_kept = fares.is_there();
        FaresFirst {
            keeper,
            rt,
            fares,
            is_kept,
            has_failed: false,
        }
    }

    /// Keeps the fare file and the zone, unless they are kept.
    fn keep_fares(&mut self) -> Result<(), NotKept>
        ensures same { self.new.keeper ≡ self.old.keeper }
        ensures failed { OnErr result (self.new.has_failed ≡ true) }
    {
        if self.is_kept {
            return Ok(());
        }
        match self.fares.keep(&self.rt) {
            Ok(()) => {
                self.is_kept = true;
                Ok(())
            }
            Err(_) => {
                self.has_failed = true;
                Err(NotKept)
            }
        }
    }
}

/// The same text once more.
pub(crate) fn copy_of(alloc: Global, text: &str) -> Result<String, AllocError> {
    let mut copy = String::new(alloc);
    copy.push_str(text)?;
    Ok(copy)
}

impl<K: Keeper, R: Files<File = File> + Log + AllocGlobal + Copy> Keeper for FaresFirst<K, R> {
    ghost use Rattle.std.specs.Prelude.{◌≡◌, ◌⊎◌, true};

    ghost holds = { λ k. K.holds k.keeper };

    ghost HasFailed = { λ k. K.HasFailed k.keeper ⊎ (k.has_failed ≡ true) };

    ghost IsSettled = { λ k. K.IsSettled k.keeper };

    fn keep(&mut self, command: Command) -> Result<(), NotKept> {
        match self.keep_fares() {
            Ok(()) => self.keeper.keep(command),
            Err(fault) => Err(fault),
        }
    }

    fn settle(&mut self) -> Result<(), NotKept> {
        if !self.fares.closes {
            return self.keeper.settle();
        }
        match self.keep_fares() {
            Ok(()) => self.keeper.settle(),
            Err(fault) => Err(fault),
        }
    }

    fn tell(&self, accounts: usize, waiting: usize) {
        self.keeper.tell(accounts, waiting);
    }
}
