//! A ledger of a database in two files, whatever disk these are on.
ghost use Rattle.std.specs.Prelude.{◌≡◌, false, IfOk, IfErr};
ghost use Rattle.sqlite.specs.Files.{over_files};
ghost use Rattle.sqlite.specs.Held.{state};
ghost use Rattle.pay_ledger_files.specs.Files.{has_meta};
ghost use Rattle.pay_ledger_files.specs.Opening.{IsMadeOf, IsNoneOf};

use pay_ledger::{Ledger, OpenFault};
use sqlite::{Alter, Connection, FileStore};
use sqlite_disk::Disk;
use std::alloc::Global;

/// The ledger that `Ledger::open` makes of a database, or why there is none, without the database. A call of that at the type of one
/// store costs most of a minute to be proved, so this is the only one.
pub fn ledger_of<D: Disk + Drop>(
    alloc: Global,
    conn: Connection<FileStore<D>>,
) -> Result<Ledger<FileStore<D>>, OpenFault>
    requires { conn.in_transaction ≡ false }
    ensures made { IfOk result (IsMadeOf over_files conn) }
    ensures refused { IfErr result (IsNoneOf over_files conn) }
{
    match Ledger::open(alloc, conn) {
        Ok(ledger) => Ok(ledger),
        Err((fault, _)) => Err(fault),
    }
}

/// Whether the table is there in which each ledger tells its version.
pub fn has_meta<S: Alter>(conn: &Connection<S>) -> bool
    ensures { result ≡ has_meta (state S.Store conn.now).now }
{
    conn.schema().table_named(b"meta").is_some()
}
