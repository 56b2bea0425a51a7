//! Readers, with what they answer.
ghost use Rattle.std.specs.Prelude.{◌≡◌, [], length, ⊤, IfSome, IfOk};
ghost use Rattle.std.specs.Borrow.{sem};
ghost use Rattle.std.specs.Io.{StartsWith};
ghost use Rattle.std.specs.Io.BufRead.{Rests, FillKeeps, DropsConsumable};
ghost use Rattle.std.specs.IoError.{error_kind};
ghost use Rattle.pay_wire.specs.Words.{answer_of};
ghost use Rattle.pay_session.specs.Calls.{ReaderCall, Filled, Consumed};

use std::io;
use std::io::BufRead;

/// A reader that is asked by two calls alone, so that contracts can name what it answered. Each reader with a buffer is one.
pub trait KnownReader: BufRead {
    /// What it may answer: the reader before a call, the call with its answer, and the reader after it. Nothing else is
    /// known of it, so that only a call shows that it was asked, and what it answered.
    ghost MayAnswer: { Self → ReaderCall → Self → Type 0 };

    /// Asks it to show what is in its buffer, or to fill it.
    fn ask_to_fill(&mut self) -> io::Result<&[u8]>
        ensures front { IfSome (Self.remaining self.old) (λ xs. IfOk result (λ s. StartsWith xs s.now)) }
        ensures end { IfSome (Self.remaining self.old) (λ xs. IfOk result (λ s. length s.now ≡ 0 → xs ≡ [])) }
        ensures* told { sem 𝓛 (Rests Self.row self.entry (λ new.
            FillKeeps (Self.remaining self.old) (Self.remaining new) (Self.consumable_len new) result
            × MayAnswer self.old (Filled (answer_of (λ s. length s.now) error_kind result)) new)) };

    /// Tells it that so many bytes of those that it showed are done with.
    fn ask_to_consume(&mut self, amount: usize)
        ensures bytes { DropsConsumable (Self.remaining self.old) (Self.remaining self.new) (Self.consumable_len self.old) amount }
        ensures told { MayAnswer self.old Consumed self.new };
}

impl<R: BufRead> KnownReader for R {
    ghost MayAnswer = { λ _ _ _. ⊤ };

    fn ask_to_fill(&mut self) -> io::Result<&[u8]> {
        self.fill_buf()
    }

    fn ask_to_consume(&mut self, amount: usize) {
        self.consume(amount);
    }
}
