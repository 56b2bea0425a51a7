//! Lines kept in a file, which is cut to its whole lines before the first of them.
ghost use Rattle.std.specs.Prelude.{◌≡◌, None, Some, true, OnErr, OnOk};
ghost use Rattle.std.specs.Io.KnownBytes.{Appends, Keeps};
ghost use Rattle.pay_wire.specs.Words.{AppendsFront};
ghost use Rattle.pay_journal.specs.Keeping.{held, HasFailed, IsSettled};
ghost use Rattle.pay_journal.specs.Lines.{line_of};

use crate::keeper::{Keeper, NotKept};
use crate::lasting::Lasting;
use crate::lines::line_of;
use pay_shard::Command;
use pay_wire::{KnownWriter, send_line};

/// Keeps lines after the first bytes of what a writer has, each by one write where the writer takes it whole. What stands after these
/// bytes is cut off before the first line is kept, and not at all if none is.
#[derive(Drop)]
pub struct LineKeeper<W> {
    /// Where the lines go.
    pub writer: W,
    /// How many bytes it is to be cut to, unless it was.
    pub whole: Option<u64>,
    /// Whether each line is settled at once.
    pub syncs: bool,
}

impl<W: Lasting> LineKeeper<W> {
    /// A keeper over a writer, of which only the first `whole` bytes count, and which settles each line at once, or does not.
    pub fn begin(writer: W, whole: u64, syncs: bool) -> LineKeeper<W>
        ensures writer { result.writer ≡ writer }
        ensures whole { result.whole ≡ Some whole }
        ensures syncs { result.syncs ≡ syncs }
    {
        LineKeeper {
            writer,
            whole: Some(whole),
            syncs,
        }
    }

    /// Keeps a line, as [`Keeper`] says. If each line is settled at once, it is done only where this one is.
    pub fn keep(&mut self, command: Command) -> Result<(), NotKept>
        ensures kept { OnOk result (Appends (held self.old.whole (W.contents self.old.writer)) (held self.new.whole (W.contents self.new.writer)) (line_of command)) }
        ensures front { OnErr result (AppendsFront (held self.old.whole (W.contents self.old.writer)) (held self.new.whole (W.contents self.new.writer)) (line_of command)) }
        ensures failed { OnErr result (HasFailed W.MayAnswer W.Settles W.Cuts self.new.writer) }
        ensures settled { OnOk result (self.old.syncs ≡ true → IsSettled W.Settles self.new.writer) }
        ensures syncs { self.new.syncs ≡ self.old.syncs }
        ensures cut { OnOk result (self.new.whole ≡ None) }
    {
        match self.cut() {
            Ok(()) => self.append(command),
            Err(fault) => Err(fault),
        }
    }

    /// Settles what it holds, as [`Keeper`] says.
    pub fn settle(&mut self) -> Result<(), NotKept>
        ensures same { Keeps (W.contents self.old.writer) (W.contents self.new.writer) }
        ensures settled { OnOk result (IsSettled W.Settles self.new.writer) }
        ensures failed { OnErr result (HasFailed W.MayAnswer W.Settles W.Cuts self.new.writer) }
        ensures syncs { self.new.syncs ≡ self.old.syncs }
        ensures whole { self.new.whole ≡ self.old.whole }
    {
        settled(&mut self.writer)
    }

    /// Cuts off what does not count, unless that was done.
    fn cut(&mut self) -> Result<(), NotKept>
        ensures same { Keeps (held self.old.whole (W.contents self.old.writer)) (held self.new.whole (W.contents self.new.writer)) }
        ensures done { OnOk result (self.new.whole ≡ None) }
        ensures failed { OnErr result (HasFailed W.MayAnswer W.Settles W.Cuts self.new.writer) }
        ensures syncs { self.new.syncs ≡ self.old.syncs }
    {
        let Some(whole) = self.whole else {
            return Ok(());
        };
        match self.writer.cut_to(whole) {
            Ok(()) => {
                self.whole = None;
                Ok(())
            }
            Err(_) => Err(NotKept),
        }
    }

    /// Writes a line after all that the writer has, and settles it, if each line is settled at once.
    fn append(&mut self, command: Command) -> Result<(), NotKept>
        ensures kept { OnOk result (Appends (W.contents self.old.writer) (W.contents self.new.writer) (line_of command)) }
        ensures front { OnErr result (AppendsFront (W.contents self.old.writer) (W.contents self.new.writer) (line_of command)) }
        ensures failed { OnErr result (HasFailed W.MayAnswer W.Settles W.Cuts self.new.writer) }
        ensures settled { OnOk result (self.old.syncs ≡ true → IsSettled W.Settles self.new.writer) }
        ensures syncs { self.new.syncs ≡ self.old.syncs }
        ensures whole { self.new.whole ≡ self.old.whole }
    {
        match send_line(&mut self.writer, line_of(command).as_slice()) {
            Ok(()) => self.settle_line(),
            Err(_) => Err(NotKept),
        }
    }

    /// Settles what it holds, if each line is settled at once.
    fn settle_line(&mut self) -> Result<(), NotKept>
        ensures same { Keeps (W.contents self.old.writer) (W.contents self.new.writer) }
        ensures failed { OnErr result (HasFailed W.MayAnswer W.Settles W.Cuts self.new.writer) }
        ensures settled { OnOk result (self.new.syncs ≡ true → IsSettled W.Settles self.new.writer) }
        ensures syncs { self.new.syncs ≡ self.old.syncs }
        ensures whole { self.new.whole ≡ self.old.whole }
    {
        if self.syncs {
            return settled(&mut self.writer);
        }
        Ok(())
    }
}

/// Has a writer settle what it was given.
fn settled<W: Lasting>(writer: &mut W) -> Result<(), NotKept>
    ensures same { Keeps (W.contents writer.old) (W.contents writer.new) }
    ensures settled { OnOk result (IsSettled W.Settles writer.new) }
    ensures failed { OnErr result (HasFailed W.MayAnswer W.Settles W.Cuts writer.new) }
{
    match writer.settle() {
        Ok(()) => Ok(()),
        Err(_) => Err(NotKept),
    }
}

impl<W: Lasting + KnownWriter> Keeper for LineKeeper<W> {
    ghost use Rattle.pay_journal.specs.Keeping.{held, HasFailed, IsSettled};

    ghost holds = { λ k. held k.whole (W.contents k.writer) };

    ghost HasFailed = { λ k. HasFailed W.MayAnswer W.Settles W.Cuts k.writer };

    ghost IsSettled = { λ k. IsSettled W.Settles k.writer };

    fn keep(&mut self, command: Command) -> Result<(), NotKept> {
        LineKeeper::keep(self, command)
    }

    fn settle(&mut self) -> Result<(), NotKept> {
        LineKeeper::settle(self)
    }

    fn tell(&self, _: usize, _: usize) {}
}
