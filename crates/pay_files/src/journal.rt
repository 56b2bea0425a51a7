//! The files of journals.
ghost use Rattle.std.specs.Prelude.{◌≡◌, ◌≤◌, ◌↔◌, ◌+◌, true, false, length, count_by, nat_eq, IfOk, OnOk};
ghost use Rattle.pay_session.specs.Words.{rest_of};
ghost use Rattle.pay_files.specs.Journals.{are_zeros, is_cut_line, may_begin};
ghost use Rattle.pay_words.specs.declared.limits.TheConstants.{MOST_SHARDS};

use crate::errors::memory_or;
use crate::loads::Loads;
use crate::reporting_keeper::ReportingKeeper;
use pay_jobs::{Fault, FileFault, LineKeeper, whole_bytes};
use pay_ledger::OpenFault;
use pay_log::Log;
use pay_wire::limits::MOST_LINE_BYTES;
use pay_words::limits::MOST_SHARDS;
use std::alloc::{AllocError, Global};
use std::fs::{File, Files, OpenOptions};
use std::io::{ErrorKind, Read};
use std::os::unix::fs::OpenOptionsExt;
use std::sync::Arc;
use std::sync::atomic::AtomicBool;
use std::{fs, io};

/// How many journals a folder has: one for each shard that a service may have.
pub(crate) const JOURNALS: u8 = MOST_SHARDS as u8;

/// Who may read and write a file that is made here: accounts and charges are nobody else's.
pub(crate) const OWNER_ALONE: u32 = 0o600;

/// What the name of a file ends with that is written beside another, before it takes that one's place.
pub(crate) const ASIDE: &str = ".tmp";

/// The journals in a folder, by their numbers.
#[derive(Drop)]
pub struct JournalFiles<R> {
    /// What each of them has.
    pub texts: Vec<Vec<u8>>,
    /// What keeps lines in those of a service's shards, and reports where it cannot.
    pub keepers: Vec<ReportingKeeper<LineKeeper<File>, R>>,
    /// The others, which no other session has while they are open.
    pub others: Vec<File>,
    /// What is told where one of the keepers fails.
    pub failed: Arc<AtomicBool>,
    /// What the keepers learn of the loads of their shards.
    pub loads: Loads,
}

/// A journal that is open.
#[derive(Drop)]
pub struct JournalFile {
    /// What it has.
    pub past: Vec<u8>,
    /// Its file, at whose end lines are added.
    pub file: File,
}

/// How many newlines a text has.
fn newlines_in(text: &[u8]) -> usize
    ensures { result ≡ count_by (nat_eq 10) text.now }
{
    text.iter().filter(|byte| **byte == b'\n').count()
}

/// Opens the journal at a path, which is made where there is none. No other session has it then.
pub fn open_journal<R: Files<File = File> + AllocGlobal>(
    rt: &R,
    path: &str,
) -> Result<JournalFile, Fault> {
    match opened_alone(rt, path) {
        Ok((past, file)) => Ok(JournalFile { past, file }),
        Err(error) => Err(memory_or(&error, Fault::File(FileFault::CannotUseJournal))),
    }
}

/// Opens the journals in a folder, each of which is made where there is none: that of each shard, and those of the shards that a
/// service does not have, to which nothing is added. No other session has any of them then.
pub fn open_journals<R: Files<File = File> + Log + AllocGlobal + Copy>(
    rt: &R,
    folder: &str,
    shards: u8,
) -> Result<JournalFiles<R>, Fault>
    requires few { shards ≤ MOST_SHARDS }
    ensures keepers { IfOk result (λ journals. length journals.keepers.items ≡ shards) }
    ensures held { IfOk result (λ journals. length journals.keepers.items + length journals.others.items ≡ MOST_SHARDS) }
    ensures texts { IfOk result (λ journals. length journals.texts.items ≡ MOST_SHARDS) }
{
    match all_opened(rt, folder, shards) {
        Ok(journals) => Ok(journals),
        Err(error) => Err(memory_or(&error, Fault::File(FileFault::CannotUseJournal))),
    }
}

fn all_opened<R: Files<File = File> + Log + AllocGlobal + Copy>(
    rt: &R,
    folder: &str,
    shards: u8,
) -> io::Result<JournalFiles<R>>
    requires few { shards ≤ MOST_SHARDS }
    ensures keepers { IfOk result (λ journals. length journals.keepers.items ≡ shards) }
    ensures held { IfOk result (λ journals. length journals.keepers.items + length journals.others.items ≡ MOST_SHARDS) }
    ensures texts { IfOk result (λ journals. length journals.texts.items ≡ MOST_SHARDS) }
{
    if !fs::metadata(rt, folder)?.is_dir() {
        return Err(io::Error::from(ErrorKind::NotADirectory));
    }
    let mut journals = JournalFiles {
        texts: Vec::new(rt.alloc()),
        keepers: Vec::new(rt.alloc()),
        others: Vec::new(rt.alloc()),
        failed: Arc::new(rt.alloc(), AtomicBool::new(false)).map_err(AllocError::from)?,
        loads: Loads::new(rt.alloc()),
    };
    for number in 0..shards {
        let path = path_in(rt.alloc(), folder, u64::from(number))?;
        let (past, file) = opened(rt, path.as_str())?;
        journals.keep(*rt, path, past, file)?;
    }
    for number in shards..JOURNALS {
        let path = path_in(rt.alloc(), folder, u64::from(number))?;
        let (past, file) = opened(rt, path.as_str())?;
        journals.hold(past, file)?;
    }
    settle_names(rt, folder)?;
    Ok(journals)
}

/// The path of the journal of that number in a folder.
pub fn path_in(alloc: Global, folder: &str, number: u64) -> Result<String, AllocError> {
    let mut path = String::new(alloc);
    write!(path, "{folder}/{number}.lines")?;
    Ok(path)
}

impl<R: Log + Copy> JournalFiles<R> {
    /// How many whole lines all of them have.
    pub fn lines(&self) -> u64 {
        let mut lines: u64 = 0;
        for text in &self.texts {
            lines = lines.saturating_add(newlines_in(text) as u64);
        }
        lines
    }

    /// Takes the journal of the next shard.
    fn keep(&mut self, rt: R, path: String, past: Vec<u8>, file: File) -> Result<(), AllocError>
        ensures texts { OnOk result (length self.new.texts.items ≡ 1 + length self.old.texts.items) }
        ensures keepers { OnOk result (length self.new.keepers.items ≡ 1 + length self.old.keepers.items) }
        ensures others { OnOk result (self.new.others ≡ self.old.others) }
    {
        let keeper = LineKeeper::begin(file, whole_bytes(past.as_slice()), false);
        let keeper = ReportingKeeper {
            keeper,
            rt,
            path,
            failed: Arc::clone(&self.failed)?,
            load: self.loads.add()?,
        };
        self.texts.push(past).map_err(AllocError::from)?;
        self.keepers.push(keeper).map_err(AllocError::from)?;
        Ok(())
    }

    /// Takes the next journal, of no shard.
    fn hold(&mut self, past: Vec<u8>, file: File) -> Result<(), AllocError>
        ensures texts { OnOk result (length self.new.texts.items ≡ 1 + length self.old.texts.items) }
        ensures keepers { OnOk result (self.new.keepers ≡ self.old.keepers) }
        ensures others { OnOk result (length self.new.others.items ≡ 1 + length self.old.others.items) }
    {
        self.texts.push(past).map_err(AllocError::from)?;
        self.others.push(file).map_err(AllocError::from)?;
        Ok(())
    }
}

/// Has what the journals of a service's shards in a folder have on the disk.
pub fn settle_journals<R: Files<File = File> + AllocGlobal>(
    rt: &R,
    folder: &str,
    shards: u8,
) -> Result<(), Fault> {
    match all_settled(rt, folder, shards) {
        Ok(()) => Ok(()),
        Err(error) => Err(memory_or(&error, Fault::Journal)),
    }
}

fn all_settled<R: Files<File = File> + AllocGlobal>(
    rt: &R,
    folder: &str,
    shards: u8,
) -> io::Result<()> {
    for number in 0..shards {
        let path = path_in(rt.alloc(), folder, u64::from(number))?;
        fs::open(rt, path.as_str())?.sync_data()?;
    }
    Ok(())
}

/// Makes the file of a ledger where there is none, so that its owner alone may read and write it, as then the log beside it. Refused is a
/// ledger whose file, or the log, is a journal that is open: here, or in another session. Each would write over the other.
pub fn ready_ledger<R: Files<File = File> + AllocGlobal>(
    rt: &R,
    ledger: &str,
) -> Result<(), Fault> {
    let log = log_of(rt, ledger)?;
    if is_open(rt, ledger) || is_open(rt, log.as_str()) {
        return Err(Fault::from(OpenFault::Store));
    }
    match make_new(rt, ledger) {
        Err(error) if error.kind() == ErrorKind::OutOfMemory => Err(Fault::from(AllocError)),
        // Why it is not there is reported where it is opened.
        _ => Ok(()),
    }
}

/// Whether the file of a ledger is one that a database is made in anew, whatever the log beside it has: it is missing, or has a byte at
/// most.
pub fn is_new_ledger<R: Files>(rt: &R, ledger: &str) -> bool {
    match fs::metadata(rt, ledger) {
        Ok(file) => file.len() <= 1,
        Err(error) => error.kind() == ErrorKind::NotFound,
    }
}

/// Refuses a ledger whose place is that of a file which is written beside the journals, or where that is written first: it would be
/// written over. The ledger need not be there yet.
pub(crate) fn refuse_ledger_at<R: Files + AllocGlobal>(
    rt: &R,
    ledger: &str,
    beside: &str,
) -> Result<(), Fault> {
    let place = place_of(rt, ledger)?;
    let own = place_of(rt, beside)?;
    let place = place.as_str();
    if place == own.as_str() || place.strip_suffix(ASIDE) == Some(own.as_str()) {
        return Err(Fault::from(OpenFault::Store));
    }
    Ok(())
}

/// Where the file at a path lies, or would lie: its name after its folder, without links. As it is written, where that has no folder.
pub(crate) fn place_of<R: Files + AllocGlobal>(rt: &R, path: &str) -> Result<String, AllocError> {
    let mut place = String::new(rt.alloc());
    match put_place(rt, path, &mut place) {
        Ok(()) => Ok(place),
        Err(error) if error.kind() == ErrorKind::OutOfMemory => Err(AllocError),
        Err(_) => {
            let mut place = String::new(rt.alloc());
            place.push_str(path)?;
            Ok(place)
        }
    }
}

fn put_place<R: Files + AllocGlobal>(rt: &R, path: &str, place: &mut String) -> io::Result<()> {
    match fs::canonicalize(rt, path) {
        Ok(file) => place.push_str(file.as_str())?,
        Err(error) if error.kind() == ErrorKind::NotFound => {
            let folder = fs::canonicalize(rt, folder_of(path))?;
            let folder = folder.as_str();
            write!(place, "{}/{}", folder.trim_end_matches('/'), name_of(path))?;
        }
        Err(error) => return Err(error),
    }
    Ok(())
}

/// Makes the file at a path, at which nothing stands.
fn make_new<R: Files<File = File>>(rt: &R, path: &str) -> io::Result<()> {
    OpenOptions::new()
        .write(true)
        .create_new(true)
        .mode(OWNER_ALONE)
        .open(rt, path)?;
    Ok(())
}

/// The path of the log of a ledger. That lies beside the ledger's file, also where the ledger's path is a link to it.
fn log_of<R: Files + AllocGlobal>(rt: &R, path: &str) -> Result<String, AllocError> {
    match fs::canonicalize(rt, path) {
        Ok(file) => log_beside(rt.alloc(), file.as_str()),
        Err(error) if error.kind() == ErrorKind::OutOfMemory => Err(AllocError),
        Err(_) => log_beside(rt.alloc(), path),
    }
}

/// The path of the log beside a database file.
pub(crate) fn log_beside(alloc: Global, file: &str) -> Result<String, AllocError> {
    let mut log = String::new(alloc);
    write!(log, "{file}-wal")?;
    Ok(log)
}

/// Whether a journal is open at a path.
fn is_open<R: Files<File = File>>(rt: &R, path: &str) -> bool {
    match lock_once(rt, path) {
        Ok(()) => false,
        Err(error) => error.kind() == ErrorKind::WouldBlock,
    }
}

/// Locks the file at a path, where there is one, and lets it go.
fn lock_once<R: Files<File = File>>(rt: &R, path: &str) -> io::Result<()> {
    if fs::metadata(rt, path)?.is_file() {
        fs::open(rt, path)?.try_lock().map_err(io::Error::from)?;
    }
    Ok(())
}

/// The bytes of the journal at a path, which is only read.
pub fn read_journal<R: Files + AllocGlobal>(rt: &R, path: &str) -> Result<Vec<u8>, Fault> {
    match bytes_of(rt, path) {
        Ok(past) => Ok(past),
        Err(error) => Err(memory_or(&error, Fault::File(FileFault::CannotUseJournal))),
    }
}

/// The bytes of the file at a path. What is no file is not opened, since that could wait for another program.
fn bytes_of<R: Files + AllocGlobal>(rt: &R, path: &str) -> io::Result<Vec<u8>> {
    if !fs::metadata(rt, path)?.is_file() {
        return Err(io::Error::from(ErrorKind::InvalidInput));
    }
    fs::read(rt, path)
}

/// The journal at a path by itself.
fn opened_alone<R: Files<File = File> + AllocGlobal>(
    rt: &R,
    path: &str,
) -> io::Result<(Vec<u8>, File)> {
    let journal = opened(rt, path)?;
    settle_folder_of(rt, path)?;
    Ok(journal)
}

/// The bytes of the file at a path, and the file, at whose end lines are added. It is made where there is none, also where a link leads.
fn opened<R: Files<File = File> + AllocGlobal>(rt: &R, path: &str) -> io::Result<(Vec<u8>, File)> {
    let mut file = open_or_make(rt, path)?;
    if !file.metadata()?.is_file() {
        return Err(io::Error::from(ErrorKind::InvalidInput));
    }
    file.try_lock().map_err(io::Error::from)?;
    settle_target(rt, path)?;
    let mut past = Vec::new(rt.alloc());
    file.read_to_end(&mut past)?;
    if is_of_another(past.as_slice()) {
        return Err(io::Error::from(ErrorKind::InvalidData));
    }
    Ok((past, file))
}

/// Whether a text is no journal: it has no newline, and is no cut line of one. A file of another must not be cut to nothing.
fn is_of_another(past: &[u8]) -> bool
    ensures { (result ≡ true) ↔ ((length (rest_of past.now) ≡ length past.now) × (is_cut_line past.now ≡ false)) }
{
    whole_bytes(past) == 0 && !is_cut_line(past)
}

/// Whether a text may be what is left of a line that was kept: no more than a line may have, and a beginning of it. After a crash some
/// systems leave zero bytes in its place.
fn is_cut_line(rest: &[u8]) -> bool
    ensures { result ≡ is_cut_line rest.now }
{
    rest.len() <= MOST_LINE_BYTES
        && (may_begin(rest, b"TAP ") || may_begin(rest, b"FIX ") || are_zeros(rest))
}

/// Whether a text begins with a word, or is cut within it.
fn may_begin(rest: &[u8], word: &[u8]) -> bool
    ensures { result ≡ may_begin word.now rest.now }
{
    rest.starts_with(word) || word.starts_with(rest)
}

fn are_zeros(bytes: &[u8]) -> bool
    ensures { result ≡ are_zeros bytes.now }
{
    bytes.iter().all(|byte| *byte == 0)
}

/// Opens the file at a path, or makes it. What is there is opened as it is: a system may refuse to make what another's file is.
pub(crate) fn open_or_make<R: Files<File = File>>(rt: &R, path: &str) -> io::Result<File> {
    match open(rt, path, false) {
        Err(error) if error.kind() == ErrorKind::NotFound => open(rt, path, true),
        found => found,
    }
}

fn open<R: Files<File = File>>(rt: &R, path: &str, makes: bool) -> io::Result<File> {
    OpenOptions::new()
        .read(true)
        .append(true)
        .create(makes)
        .mode(OWNER_ALONE)
        .open(rt, path)
}

/// Has the name of a file on the disk to which a path leads that is a link.
pub(crate) fn settle_target<R: Files<File = File> + AllocGlobal>(
    rt: &R,
    path: &str,
) -> io::Result<()> {
    if fs::symlink_metadata(rt, path)?.is_symlink() {
        let file = fs::canonicalize(rt, path)?;
        settle_folder_of(rt, file.as_str())?;
    }
    Ok(())
}

/// Has the names in a folder on the disk: what is kept in a file is lost without its name. A start that made it may have been cut off
/// before it did this, so each does it.
fn settle_names<R: Files<File = File>>(rt: &R, folder: &str) -> io::Result<()> {
    fs::open(rt, folder)?.sync_all()
}

/// Has the name of the file at a path on the disk.
pub(crate) fn settle_folder_of<R: Files<File = File>>(rt: &R, path: &str) -> io::Result<()> {
    settle_names(rt, folder_of(path))
}

/// The folder of the file at a path.
pub(crate) fn folder_of(path: &str) -> &str {
    match path.rsplit_once('/') {
        None => ".",
        Some(("", _)) => "/",
        Some((folder, _)) => folder,
    }
}

/// The name of the file at a path in its folder.
fn name_of(path: &str) -> &str {
    match path.rsplit_once('/') {
        None => path,
        Some((_, name)) => name,
    }
}
