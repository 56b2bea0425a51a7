//! A ledger in a file.
ghost use Rattle.std.specs.Prelude.{◌≡◌, false, [], IfOk, IfErr};
ghost use Rattle.sqlite.specs.Files.{file_state, over_files};
ghost use Rattle.sqlite.specs.Start.{FindsIn};
ghost use Rattle.sqlite.specs.State.{HasCleanDisk, Opens};
ghost use Rattle.sqlite.specs.Steps.{IsEmpty};
ghost use Rattle.sqlite.specs.WalFiles.{image_at};
ghost use Rattle.pay_ledger_files.specs.Files.{fault_of_file, IsUnopened, IsOpenedOf, IsNotOpenedFrom, IsExistingOf, IsNotExistingIn};
ghost use Rattle.pay_ledger.specs.Words.{IsLedger, nothing};

use crate::log::{has_log, remove_empty_log};
use crate::opening::{has_meta, ledger_of};
use pay_disk::open_database;
use pay_ledger::{Ledger, OpenFault};
use sqlite::{Connection, Error, ErrorCode, FileFrom, FileStore, Start};

/// Why there is no ledger where no database was opened.
fn fault_of_file(error: Error) -> OpenFault
    ensures { result ≡ fault_of_file error }
{
    match error {
        Error::SqliteFailure(ErrorCode::NotADatabase) => OpenFault::NotALedger,
        _ => OpenFault::Store,
    }
}

/// The database in the file at a path, or why there is no ledger.
fn database_at<S: Start>(
    rt: &HostRuntime,
    path: &str,
    start: S,
) -> Result<Connection<FileStore<FileFrom<S>>>, OpenFault>
    ensures opened { IfOk result (λ c. HasCleanDisk (file_state c) → Opens (file_state c) × FindsIn (image_at S.Start) (file_state c)) }
    ensures empty { IfOk result (λ c. HasCleanDisk (file_state c) → S.Start.db ≡ [] → IsEmpty (file_state c)) }
    ensures autocommit { IfOk result (λ c. c.in_transaction ≡ false) }
    ensures refused { IfErr result IsUnopened }
{
    match open_database(rt, path, start) {
        Ok(conn) => Ok(conn),
        Err(error) => Err(fault_of_file(error)),
    }
}

/// Opens the file at a path as a ledger, which is made where there is none: the file and the log beside it too. `S` stands for what
/// the two held. `NotALedger` also where the file holds no database that keeps its own rules, and `Store` where it is in use, a page
/// of it is damaged, or it is not to be made, read or written.
pub fn open_file<S: Start>(
    rt: &HostRuntime,
    path: &str,
    start: S,
) -> Result<Ledger<FileStore<FileFrom<S>>>, OpenFault>
    ensures opened { IfOk result (λ ledger. IsOpenedOf over_files (FindsIn (image_at S.Start)) ledger) }
    ensures empty { IfOk result (λ ledger. HasCleanDisk (file_state ledger) → S.Start.db ≡ [] → IsLedger (file_state ledger).now nothing) }
    ensures refused { IsNotOpenedFrom (image_at S.Start) result }
{
    let conn = database_at(rt, path, start)?;
    match ledger_of(rt.alloc(), conn) {
        Ok(ledger) => Ok(ledger),
        Err(fault) => Err(fault),
    }
}

/// The same of a ledger that is there already: nothing is made where a database has none of its tables, which is `NotALedger` too, and
/// stays as it is; a log of no bytes beside it is removed. One of version 1 becomes one of version 2, as in [`open_file`]. The caller
/// sees to it that the file is there: where it is not, it is made, with a database without tables.
pub fn open_existing<S: Start>(
    rt: &HostRuntime,
    path: &str,
    start: S,
) -> Result<Ledger<FileStore<FileFrom<S>>>, OpenFault>
    ensures opened { IfOk result (λ ledger. IsExistingOf over_files (FindsIn (image_at S.Start)) ledger) }
    ensures refused { IsNotExistingIn (image_at S.Start) result }
{
    let had_log = has_log(rt, path);
    let conn = database_at(rt, path, start)?;
    if !has_meta(&conn) {
        if !had_log {
            remove_empty_log(rt, path);
        }
        return Err(OpenFault::NotALedger);
    }
    match ledger_of(rt.alloc(), conn) {
        Ok(ledger) => Ok(ledger),
        Err(fault) => Err(fault),
    }
}
