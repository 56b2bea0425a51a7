//! Files that are read on.
ghost use Rattle.std.specs.Prelude.{◌≡◌, ◌<◌, ◌≤◌, length};

use std::fs::File;
use std::io::{ErrorKind, Read, Seek, SeekFrom};
use std::rt::Files;
use std::{fs, io};

/// How many bytes are read at a time.
pub(crate) const CHUNK: u64 = 4 * 1024 * 1024;

/// The next bytes of the file at a path from a position on: none where it ends there, or where there is no file. One that has become shorter
/// is another.
pub(crate) fn read_after<R: Files<File = File> + AllocGlobal>(
    rt: &R,
    path: &str,
    at: u64,
) -> io::Result<Vec<u8>> {
    let mut bytes = Vec::new(rt.alloc());
    let found = match fs::metadata(rt, path) {
        Err(error) if error.kind() == ErrorKind::NotFound && at == 0 => return Ok(bytes),
        found => found?,
    };
    // What is no file is not opened: that could wait for another program.
    if !found.is_file() || found.len() < at {
        return Err(io::Error::from(ErrorKind::InvalidData));
    }
    if found.len() > at {
        let mut file = fs::open(rt, path)?;
        file.seek(SeekFrom::Start(at))?;
        file.take(CHUNK).read_to_end(&mut bytes)?;
    }
    Ok(bytes)
}
