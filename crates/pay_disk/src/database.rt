//! A new database over two files in memory.
ghost use Rattle.std.specs.Prelude.{IfOk, IfErr, IsTrue};
ghost use Rattle.sqlite.specs.Files.{file_state};
ghost use Rattle.sqlite.specs.Held.{IsNew};
ghost use Rattle.sqlite.specs.Opening.{is_open_error};
ghost use Rattle.sqlite.specs.Steps.{IsEmpty};

use crate::limits::{CACHED_PAGES, LOGGED_PAGES, UNSPILLED_PAGES};
use crate::scratch_file::ScratchFile;
use sqlite::{Connection, Error, FileStore, Files, Options};
use std::alloc::Global;

/// The pages of a new database: nobody else reads its log, so any number will do for its salts.
fn options() -> Options {
    Options {
        cache_pages: CACHED_PAGES,
        spill_pages: UNSPILLED_PAGES,
        checkpoint_frames: LOGGED_PAGES,
        seed: 0,
    }
}

/// A new database without tables. It ends with the connection.
pub fn new_database(alloc: Global) -> Result<Connection<FileStore<ScratchFile>>, Error>
    ensures empty { IfOk result (λ c. IsEmpty (file_state c)) }
    ensures fresh { IfOk result IsNew }
    ensures named { IfErr result (λ e. IsTrue (is_open_error e)) }
{
    let files = Files {
        log: ScratchFile::new(alloc),
        db: ScratchFile::new(alloc),
    };
    match Connection::open_files(alloc, files, options()) {
        Ok(conn) => Ok(conn),
        Err((error, _)) => Err(error),
    }
}
