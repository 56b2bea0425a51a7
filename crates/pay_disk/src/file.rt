//! A database in a file.
ghost use Rattle.std.specs.Prelude.{◌≡◌, [], false, IsTrue, IfOk, IfErr};
ghost use Rattle.sqlite.specs.Files.{file_state, IsOpened, IsBlankAs};
ghost use Rattle.sqlite.specs.Held.{IsNew};
ghost use Rattle.sqlite.specs.Opening.{is_open_error};
ghost use Rattle.sqlite.specs.Start.{FindsIn};
ghost use Rattle.sqlite.specs.State.{HasCleanDisk};
ghost use Rattle.sqlite.specs.Steps.{IsEmpty};
ghost use Rattle.sqlite_store.specs.FileStore.{view};
ghost use Rattle.sqlite_wal.specs.Files.{image_at};

use sqlite::{Connection, Error, FileFrom, FileStore, Start};

/// The database in the file at a path, and in the log beside it; they are made where they are missing. `S` stands for what the
/// two held. A new file has pages as plain SQLite writes them. Nobody else has the file open until the connection ends.
pub fn open_database<S: Start>(
    rt: &HostRuntime,
    path: &str,
    start: S,
) -> Result<Connection<FileStore<FileFrom<S>>>, Error>
    ensures opened { IfOk result (λ c. HasCleanDisk (file_state c) → IsOpened c) }
    ensures found { IfOk result (λ c. HasCleanDisk (file_state c) → FindsIn (image_at S.Start) (file_state c)) }
    ensures empty { IfOk result (λ c. HasCleanDisk (file_state c) → S.Start.db ≡ [] → IsEmpty (file_state c)) }
    ensures plain { IfOk result (λ c. HasCleanDisk (file_state c) → IsBlankAs false (image_at S.Start) → (view c.store).has_sums ≡ false) }
    ensures fresh { IfOk result IsNew }
    ensures named { IfErr result (λ e. IsTrue (is_open_error e)) }
{
    match Connection::open_from(rt, path, false, start) {
        Ok(conn) => Ok(conn),
        Err((error, _)) => Err(error),
    }
}
