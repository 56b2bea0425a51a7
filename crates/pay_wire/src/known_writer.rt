//! Writers, with what they answer.
ghost use Rattle.std.specs.Prelude.{length, ⊤};
ghost use Rattle.std.specs.Io.{WritesAtMost};
ghost use Rattle.std.specs.Io.KnownBytes.{WriteAppends, Keeps};
ghost use Rattle.std.specs.IoError.{error_kind};
ghost use Rattle.pay_wire.specs.Calls.{WriterCall, Wrote, Flushed, answer_of, failure_of};

use std::io;
use std::io::Write;

/// A writer that is asked by two calls alone, so that contracts can name what it answered. Each writer is one.
pub trait KnownWriter: Write {
    /// What it may answer: the writer before a call, the call with its answer, and the writer after it. Nothing else is
    /// known of it, so that only a call shows that it was asked, and what it answered.
    ghost MayAnswer: { Self → WriterCall → Self → Type 0 };

    /// Asks it once to take bytes.
    fn ask_to_write(&mut self, bytes: &[u8]) -> io::Result<usize>
        ensures bound { WritesAtMost result bytes.now }
        ensures bytes { WriteAppends (Self.contents self.old) (Self.contents self.new) result bytes.now }
        ensures told { MayAnswer self.old (Wrote (length bytes.now) (answer_of (λ n. n) error_kind result)) self.new };

    /// Asks it once to flush.
    fn ask_to_flush(&mut self) -> io::Result<()>
        ensures bytes { Keeps (Self.contents self.old) (Self.contents self.new) }
        ensures told { MayAnswer self.old (Flushed (failure_of error_kind result)) self.new };
}

impl<W: Write> KnownWriter for W {
    ghost MayAnswer = { λ _ _ _. ⊤ };

    fn ask_to_write(&mut self, bytes: &[u8]) -> io::Result<usize> {
        self.write(bytes)
    }

    fn ask_to_flush(&mut self) -> io::Result<()> {
        self.flush()
    }
}
