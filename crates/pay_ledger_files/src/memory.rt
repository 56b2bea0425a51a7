//! A ledger in memory.
ghost use Rattle.std.specs.Prelude.{◌≡◌, IfOk, IfErr};
ghost use Rattle.sqlite.specs.Files.{file_state};
ghost use Rattle.pay_ledger.specs.Words.{IsLedger, nothing};
ghost use Rattle.pay_ledger.specs.declared.fault.OpenFault.TheVariants.{Store};

use crate::opening::ledger_of;
use pay_disk::laws::memory_returns;
use pay_disk::{ScratchFile, new_database};
use pay_ledger::{Ledger, OpenFault};
use sqlite::FileStore;
use std::alloc::Global;

/// A ledger in memory without postings, which ends with its session. Its database has trees of pages, as one in a file has. What is
/// written there is returned, as [`memory_returns`](pay_disk::laws::memory_returns) says. It gives `Store` for want of memory.
pub fn new_ledger(alloc: Global) -> Result<Ledger<FileStore<ScratchFile>>, OpenFault>
    ensures opened { IfOk result (λ ledger. IsLedger (file_state ledger).now nothing) }
    ensures refused { IfErr result (λ fault. fault ≡ Store) }
{
    memory_returns();
    let conn = new_database(alloc)?;
    match ledger_of(alloc, conn) {
        Ok(ledger) => Ok(ledger),
        Err(fault) => Err(fault),
    }
}
