//! A writer, and how it did when it was last asked.
ghost use Rattle.std.specs.Prelude.{◌≡◌, ◌≢◌, ◌<◌, false, length, Ok, IfOk, IfErr, OnOk};
ghost use Rattle.std.specs.Io.{WritesAtMost};
ghost use Rattle.std.specs.Io.KnownBytes.{WriteAppends, Keeps};
ghost use Rattle.std.specs.IoError.{error_kind};
ghost use Rattle.pay_wire.specs.Calls.{Wrote, answer_of, IsFlushed, IsCaused, HasCause};
ghost use Rattle.pay_wire.specs.Output.{has_failed};

use crate::known_writer::KnownWriter;
use std::io;
use std::io::ErrorKind;
use thiserror::Error;

/// Why a writer has not taken a reply.
#[derive(Clone, Copy, Debug, PartialEq, Eq, Error)]
#[error("output fault")]
pub enum WriteFault {
    /// A write failed, and was not interrupted.
    Failed(ErrorKind),
    /// A write took none of the bytes that it was given.
    TookNothing,
    /// The flush failed.
    NotFlushed(ErrorKind),
    /// 2^64 - 1 writes were not enough.
    NeverDone,
}

/// How a writer did when it was last asked for something.
#[derive(Clone, Copy)]
pub enum State {
    /// It took some bytes, or was not asked yet.
    Open,
    /// It was interrupted, and may be asked again.
    Interrupted,
    /// It was flushed, and has taken nothing since.
    Flushed,
    /// It failed, and is not asked again.
    Failed(WriteFault),
}

/// A writer, and how it did when it was last asked. Its methods alone ask the writer, and never after it
/// has failed.
#[derive(Drop)]
pub struct Output<'a, W> {
    writer: &'a mut W,
    state: State,
}

impl<'a, W: KnownWriter> Output<'a, W> {
    /// A writer that was not asked yet.
    pub fn new(writer: &'a mut W) -> Output<'a, W>
        ensures same_writer { result.writer.ghost_name ≡ writer.entry.ghost_name }
        ensures writer { result.writer.now ≡ writer.old }
        ensures open { result.state ≡ State.Open }
    {
        Output {
            writer,
            state: State::Open,
        }
    }

    /// How the writer did when it was last asked.
    pub fn state(&self) -> State
        ensures { result ≡ self.now.state }
    {
        self.state
    }

    /// Asks the writer to take bytes, and keeps how it did.
    pub fn write(&mut self, bytes: &[u8]) -> io::Result<usize>
        requires some { 0 < length bytes.now }
        requires not_failed { has_failed self.old.state ≡ false }
        ensures same_writer { self.new.writer.ghost_name ≡ self.old.writer.ghost_name }
        ensures bound { WritesAtMost result bytes.now }
        ensures bytes { WriteAppends (W.contents self.old.writer.now) (W.contents self.new.writer.now) result bytes.now }
        ensures some { IfOk result (λ n. 0 < n → self.new.state ≡ State.Open) }
        ensures none { IfOk result (λ n. n ≡ 0 → self.new.state ≡ State.Failed WriteFault.TookNothing) }
        ensures interrupted { IfErr result (λ e. error_kind e ≡ ErrorKind.Interrupted → self.new.state ≡ State.Interrupted) }
        ensures failed { IfErr result (λ e. error_kind e ≢ ErrorKind.Interrupted
            → self.new.state ≡ State.Failed (WriteFault.Failed (error_kind e))) }
        ensures told { W.MayAnswer self.old.writer.now (Wrote (length bytes.now) (answer_of (λ n. n) error_kind result)) self.new.writer.now }
        ensures cause { HasCause W.MayAnswer self.new.state self.new.writer.now }
    {
        let written = self.writer.ask_to_write(bytes);
        self.state = state_after(&written);
        written
    }

    /// Flushes the writer, and keeps how it did.
    pub fn flush(&mut self) -> Result<(), WriteFault>
        requires { has_failed self.old.state ≡ false }
        ensures same_writer { self.new.writer.ghost_name ≡ self.old.writer.ghost_name }
        ensures bytes { Keeps (W.contents self.old.writer.now) (W.contents self.new.writer.now) }
        ensures ok { OnOk result (self.new.state ≡ State.Flushed) }
        ensures err { IfErr result (λ fault. self.new.state ≡ State.Failed fault) }
        ensures not_interrupted { IfErr result (λ fault. fault ≢ WriteFault.Failed ErrorKind.Interrupted) }
        ensures flushed { OnOk result (IsFlushed W.MayAnswer self.new.writer.now) }
        ensures cause { IfErr result (λ fault. IsCaused W.MayAnswer fault self.new.writer.now) }
    {
        match self.writer.ask_to_flush() {
            Ok(()) => {
                self.state = State::Flushed;
                Ok(())
            }
            Err(e) => {
                let fault = WriteFault::NotFlushed(e.kind());
                self.state = State::Failed(fault);
                Err(fault)
            }
        }
    }
}

/// How a writer did that was asked to take bytes.
fn state_after(written: &io::Result<usize>) -> State
    ensures some { IfOk written.now (λ n. 0 < n → result ≡ State.Open) }
    ensures none { IfOk written.now (λ n. n ≡ 0 → result ≡ State.Failed WriteFault.TookNothing) }
    ensures interrupted { IfErr written.now (λ e. error_kind e ≡ ErrorKind.Interrupted → result ≡ State.Interrupted) }
    ensures failed { IfErr written.now (λ e. error_kind e ≢ ErrorKind.Interrupted
        → result ≡ State.Failed (WriteFault.Failed (error_kind e))) }
{
    match written {
        Ok(0) => State::Failed(WriteFault::TookNothing),
        Ok(_) => State::Open,
        Err(e) if e.kind() == ErrorKind::Interrupted => State::Interrupted,
        Err(e) => State::Failed(WriteFault::Failed(e.kind())),
    }
}
