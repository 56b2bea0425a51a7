//! Copies of a ledger in a file, to which nothing is posted meanwhile.

use crate::journal::{OWNER_ALONE, folder_of, log_beside, settle_folder_of};
use crate::lane_files::lies_in;
use std::fs::{File, Files, OpenOptions};
use std::io::{ErrorKind, Read, Seek, SeekFrom};
use std::os::unix::fs::OpenOptionsExt;
use std::{fs, io};

/// How many bytes of a file say what it is: the header of a database, and that of a log.
const HEADER_BYTES: u64 = 100;

/// Copies the ledger at a path to a new file, and its log beside that first. How many bytes were copied. Nothing is made in the folder of
/// the ledger or that of the journals, where a name may have a meaning.
pub fn back_up<R: Files<File = File> + AllocGlobal>(
    rt: &R,
    ledger: &str,
    journals: &str,
    path: &str,
) -> io::Result<u64> {
    let file = fs::canonicalize(rt, ledger)?;
    let file = file.as_str();
    if lies_in(rt, path, journals)? || lies_in(rt, path, folder_of(file))? {
        return Err(io::Error::from(ErrorKind::InvalidInput));
    }
    let copy_of_log = log_beside(rt.alloc(), path)?;
    let log = log_beside(rt.alloc(), file)?;
    let logged = copy_log(rt, log.as_str(), copy_of_log.as_str())?;
    match copy_new(rt, file, path) {
        Ok(copied) => Ok(copied.saturating_add(logged.unwrap_or(0))),
        Err(error) => {
            if logged.is_some() {
                let _ = fs::remove_file(rt, copy_of_log.as_str());
            }
            Err(error)
        }
    }
}

/// Copies the log of a ledger, if there is one. Where there is none, another's must not stand in the place of its copy.
fn copy_log<R: Files<File = File> + AllocGlobal>(
    rt: &R,
    log: &str,
    copy: &str,
) -> io::Result<Option<u64>> {
    if is_there(rt, log)? {
        return Ok(Some(copy_new(rt, log, copy)?));
    }
    if is_there(rt, copy)? {
        return Err(io::Error::from(ErrorKind::AlreadyExists));
    }
    Ok(None)
}

/// Whether anything stands at a path.
fn is_there<R: Files>(rt: &R, path: &str) -> io::Result<bool> {
    match fs::symlink_metadata(rt, path) {
        Ok(_) => Ok(true),
        Err(error) if error.kind() == ErrorKind::NotFound => Ok(false),
        Err(error) => Err(error),
    }
}

/// Copies a file to a new one, as far as the disk. How many bytes it has. Where that fails nothing is left of it.
fn copy_new<R: Files<File = File>>(rt: &R, from: &str, to: &str) -> io::Result<u64> {
    let mut source = fs::open(rt, from)?;
    let mut copy = OpenOptions::new()
        .write(true)
        .create_new(true)
        .mode(OWNER_ALONE)
        .open(rt, to)?;
    match settled_copy(rt, &mut source, &mut copy, to) {
        Ok(copied) => Ok(copied),
        Err(error) => {
            let _ = fs::remove_file(rt, to);
            Err(error)
        }
    }
}

/// Copies a file to one that is new at a path. Its header comes last, once the rest is on the disk: so a copy that was cut off is no
/// database and no log.
fn settled_copy<R: Files<File = File>>(
    rt: &R,
    source: &mut File,
    copy: &mut File,
    path: &str,
) -> io::Result<u64> {
    source.seek(SeekFrom::Start(HEADER_BYTES))?;
    copy.seek(SeekFrom::Start(HEADER_BYTES))?;
    let behind = io::copy(source, copy)?;
    copy.sync_all()?;
    source.rewind()?;
    copy.rewind()?;
    let header = io::copy(&mut (&*source).take(HEADER_BYTES), copy)?;
    copy.sync_all()?;
    settle_folder_of(rt, path)?;
    Ok(header.saturating_add(behind))
}
