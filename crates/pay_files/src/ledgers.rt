//! Where ledgers are.

use pay_ledger::{Ledger, OpenFault};
use pay_ledger_files::{open_existing, open_file};
use sqlite::{FileFrom, FileStore, Wary};

/// What opens ledgers in files. The jobs are generic in their store: each call at its type costs half a minute to be proved.
pub trait Ledgers {
    /// A ledger in a file.
    type InFile;

    /// Opens the file at a path as a ledger, which is made where there is none, as [`open_file`] does.
    fn ledger(&self, path: &str) -> Result<Self::InFile, OpenFault>;

    /// Opens the file at a path as a ledger that is there already, as [`open_existing`] does: in a database without one none is made.
    fn existing_ledger(&self, path: &str) -> Result<Self::InFile, OpenFault>;

    /// Closes a ledger in a file: what its log has is copied into the file.
    fn close(&self, ledger: Self::InFile);
}

/// The files of the system.
impl Ledgers for HostRuntime {
    type InFile = Ledger<FileStore<FileFrom<Wary>>>;

    fn ledger(&self, path: &str) -> Result<Ledger<FileStore<FileFrom<Wary>>>, OpenFault> {
        open_file(self, path, Wary)
    }

    fn existing_ledger(&self, path: &str) -> Result<Ledger<FileStore<FileFrom<Wary>>>, OpenFault> {
        open_existing(self, path, Wary)
    }

    fn close(&self, ledger: Ledger<FileStore<FileFrom<Wary>>>) {
        let _ = ledger.into_connection().close();
    }
}
