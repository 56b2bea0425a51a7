//! What keeps the lines of commands.
ghost use Rattle.std.specs.Prelude.{ℕ, List, Option, OnOk, OnErr};
ghost use Rattle.std.specs.Io.KnownBytes.{Appends, Keeps};
ghost use Rattle.pay_wire.specs.Words.{AppendsFront};
ghost use Rattle.pay_journal.specs.Lines.{line_of};

use pay_shard::Command;
use thiserror::Error;

/// What was to be kept is not, or not for sure.
#[derive(Clone, Copy, Debug, PartialEq, Eq, Error)]
#[error("48 NotKept")]
pub struct NotKept;

/// Keeps the lines of commands, one after the other.
pub trait Keeper: Drop {
    /// The bytes that it holds, where they are known.
    ghost holds: { Self → Option (List ℕ) };

    /// It has failed, and by what.
    ghost HasFailed: { Self → Type 0 };

    /// All that it holds was settled, and nothing was kept since.
    ghost IsSettled: { Self → Type 0 };

    /// Keeps the line of a tap or a correction. Where that fails, it holds a front of the line, perhaps all of it.
    fn keep(&mut self, command: Command) -> Result<(), NotKept>
        ensures kept { OnOk result (Appends (holds self.old) (holds self.new) (line_of command)) }
        ensures front { OnErr result (AppendsFront (holds self.old) (holds self.new) (line_of command)) }
        ensures failed { OnErr result (HasFailed self.new) };

    /// Sees to it that what it holds outlasts the machine's power.
    fn settle(&mut self) -> Result<(), NotKept>
        ensures same { Keeps (holds self.old) (holds self.new) }
        ensures settled { OnOk result (IsSettled self.new) }
        ensures failed { OnErr result (HasFailed self.new) };

    /// Learns how much its shard has on hand: how many accounts have accepted something, and how many entries wait. It may tell others;
    /// nothing that it holds changes.
    fn tell(&self, accounts: usize, waiting: usize);
}

/// A keeper that keeps nothing. It does not fail.
#[derive(Clone, Copy)]
pub struct NoKeeper;

impl Keeper for NoKeeper {
    ghost use Rattle.std.specs.Prelude.{None, ⊤};

    ghost holds = { λ _. None };

    ghost HasFailed = { λ _. ⊥ };

    ghost IsSettled = { λ _. ⊤ };

    fn keep(&mut self, _: Command) -> Result<(), NotKept> {
        Ok(())
    }

    fn settle(&mut self) -> Result<(), NotKept> {
        Ok(())
    }

    fn tell(&self, _: usize, _: usize) {}
}
