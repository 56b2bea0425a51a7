//! Writers whose bytes last.
ghost use Rattle.std.specs.Prelude.{Option, OnOk, OnErr};
ghost use Rattle.std.specs.Io.KnownBytes.{Keeps};
ghost use Rattle.std.specs.IoError.{error_kind};
ghost use Rattle.std.specs.declared.io.ErrorKind.{ErrorKind};
ghost use Rattle.pay_wire.specs.Words.{failure_of};
ghost use Rattle.pay_journal.specs.Keeping.{IsCutTo};

use pay_wire::KnownWriter;
use std::fs::File;
use std::io;

/// A writer whose bytes are to outlast the machine's power, and may be cut. Of a call it is known what the writer answered: the writer
/// before it, how it failed, if it did, and the writer after it.
pub trait Lasting: KnownWriter + Drop {
    /// What it may answer to `settle`.
    ghost Settles: { Self → Option ErrorKind → Self → Type 0 };

    /// What it may answer to `cut_to`.
    ghost Cuts: { Self → Option ErrorKind → Self → Type 0 };

    /// Has on the disk what it was given.
    fn settle(&mut self) -> io::Result<()>
        ensures bytes { Keeps (Self.contents self.old) (Self.contents self.new) }
        ensures told { Settles self.old (failure_of error_kind result) self.new };

    /// Cuts off what stands after its first `len` bytes. What is written then comes after these.
    fn cut_to(&mut self, len: u64) -> io::Result<()>
        ensures ok { OnOk result (IsCutTo len (Self.contents self.old) (Self.contents self.new)) }
        ensures err { OnErr result (Keeps (Self.contents self.old) (Self.contents self.new)) }
        ensures told { Cuts self.old (failure_of error_kind result) self.new };
}

// A file that was opened to append: what is written comes at its end, wherever that is.
impl Lasting for File {
    ghost use Rattle.std.specs.Prelude.{⊤};

    ghost Settles = { λ _ _ _. ⊤ };

    ghost Cuts = { λ _ _ _. ⊤ };

    fn settle(&mut self) -> io::Result<()> {
        self.sync_data()
    }

    fn cut_to(&mut self, len: u64) -> io::Result<()> {
        self.set_len(len)
    }
}
