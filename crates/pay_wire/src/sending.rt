//! Replies as they are written.
ghost use Rattle.std.specs.Prelude.{◌≡◌, ◌≢◌, ◌<◌, ◌≤◌, false, length, take, OnOk, OnErr, IfOk, IfErr};
ghost use Rattle.std.specs.Io.KnownBytes.{Appends, Keeps};
ghost use Rattle.pay_wire.specs.Calls.{IsWrite, IsFlushed, IsCaused};
ghost use Rattle.pay_wire.specs.Output.{AppendsFront, has_failed};
ghost use Rattle.pay_wire.specs.Replies.{spelling_of_reply, ending_of_reply, text_of_postings, text_of_journeys};

use crate::known_writer::KnownWriter;
use crate::output::{Output, State, WriteFault};
use crate::reply::{SpelledReply, render_journey, render_main_line, render_posting};
use arrayvec::ArrayVec;
use pay_rules::{Line, Posting};
use std::io::ErrorKind;

/// Writes some of the bytes, and says how many. An interrupted writer has taken none and is not at fault.
/// Where there are no bytes a writer that takes none has not failed, so it is not asked.
fn write_some<W: KnownWriter>(output: &mut Output<'_, W>, bytes: &[u8]) -> Result<usize, WriteFault>
    requires some { 0 < length bytes.now }
    requires not_failed { has_failed output.old.state ≡ false }
    ensures same_writer { output.new.writer.ghost_name ≡ output.old.writer.ghost_name }
    ensures within { IfOk result (λ n. n ≤ length bytes.now) }
    ensures ok { IfOk result (λ n. Appends (W.contents output.old.writer.now) (W.contents output.new.writer.now) (take n bytes.now)) }
    ensures err { OnErr result (Keeps (W.contents output.old.writer.now) (W.contents output.new.writer.now)) }
    ensures none { IfOk result (λ n. n ≡ 0 → output.new.state ≡ State.Interrupted) }
    ensures not_failed { OnOk result (has_failed output.new.state ≡ false) }
    ensures fault { IfErr result (λ fault. output.new.state ≡ State.Failed fault) }
    ensures not_interrupted { IfErr result (λ fault. fault ≢ WriteFault.Failed ErrorKind.Interrupted) }
    ensures told { IsWrite W.MayAnswer output.old.writer.now output.new.writer.now }
    ensures cause { IfErr result (λ fault. IsCaused W.MayAnswer fault output.new.writer.now) }
{
    let written = output.write(bytes);
    match (output.state(), written) {
        (State::Failed(fault), _) => Err(fault),
        (_, Ok(n)) => Ok(n),
        (_, Err(_)) => Ok(0),
    }
}

/// Writes all the bytes. Where the writer fails, it has taken the first of them.
fn write_whole<W: KnownWriter>(output: &mut Output<'_, W>, bytes: &[u8]) -> Result<(), WriteFault>
    requires { has_failed output.old.state ≡ false }
    ensures same_writer { output.new.writer.ghost_name ≡ output.old.writer.ghost_name }
    ensures ok { OnOk result (Appends (W.contents output.old.writer.now) (W.contents output.new.writer.now) bytes.now) }
    ensures err { OnErr result (AppendsFront (W.contents output.old.writer.now) (W.contents output.new.writer.now) bytes.now) }
    ensures not_failed { OnOk result (has_failed output.new.state ≡ false) }
    ensures fault { IfErr result (λ fault. fault ≢ WriteFault.NeverDone → output.new.state ≡ State.Failed fault) }
    ensures not_interrupted { IfErr result (λ fault. fault ≢ WriteFault.Failed ErrorKind.Interrupted) }
    ensures cause { IfErr result (λ fault. IsCaused W.MayAnswer fault output.new.writer.now) }
{
    let mut taken = 0;
    for _ in 0..u64::MAX {
        if taken >= bytes.len() {
            return Ok(());
        }
        taken += write_some(output, &bytes[taken..])?;
    }
    Err(WriteFault::NeverDone)
}

/// Writes the lines of postings. Where the writer fails, it has taken a front of them.
fn write_postings<W: KnownWriter>(
    output: &mut Output<'_, W>,
    postings: &[Posting],
) -> Result<(), WriteFault>
    requires { has_failed output.old.state ≡ false }
    ensures same_writer { output.new.writer.ghost_name ≡ output.old.writer.ghost_name }
    ensures ok { OnOk result (Appends (W.contents output.old.writer.now) (W.contents output.new.writer.now) (text_of_postings postings.now)) }
    ensures err { OnErr result (AppendsFront (W.contents output.old.writer.now) (W.contents output.new.writer.now) (text_of_postings postings.now)) }
    ensures not_failed { OnOk result (has_failed output.new.state ≡ false) }
    ensures fault { IfErr result (λ fault. fault ≢ WriteFault.NeverDone → output.new.state ≡ State.Failed fault) }
    ensures not_interrupted { IfErr result (λ fault. fault ≢ WriteFault.Failed ErrorKind.Interrupted) }
    ensures cause { IfErr result (λ fault. IsCaused W.MayAnswer fault output.new.writer.now) }
{
    for posting in postings {
        let mut line = ArrayVec::new();
        render_posting(&mut line, posting);
        write_whole(output, line.as_slice())?;
    }
    Ok(())
}

/// Writes the lines of journeys. Where the writer fails, it has taken a front of them.
fn write_journeys<W: KnownWriter>(
    output: &mut Output<'_, W>,
    journeys: &[Line],
) -> Result<(), WriteFault>
    requires { has_failed output.old.state ≡ false }
    ensures same_writer { output.new.writer.ghost_name ≡ output.old.writer.ghost_name }
    ensures ok { OnOk result (Appends (W.contents output.old.writer.now) (W.contents output.new.writer.now) (text_of_journeys journeys.now)) }
    ensures err { OnErr result (AppendsFront (W.contents output.old.writer.now) (W.contents output.new.writer.now) (text_of_journeys journeys.now)) }
    ensures not_failed { OnOk result (has_failed output.new.state ≡ false) }
    ensures fault { IfErr result (λ fault. fault ≢ WriteFault.NeverDone → output.new.state ≡ State.Failed fault) }
    ensures not_interrupted { IfErr result (λ fault. fault ≢ WriteFault.Failed ErrorKind.Interrupted) }
    ensures cause { IfErr result (λ fault. IsCaused W.MayAnswer fault output.new.writer.now) }
{
    for journey in journeys {
        let mut line = ArrayVec::new();
        render_journey(&mut line, journey);
        write_whole(output, line.as_slice())?;
    }
    Ok(())
}

/// Writes the lines of a reply after its postings. Where the writer fails, it has taken a front of them.
fn write_ending<W: KnownWriter>(
    output: &mut Output<'_, W>,
    reply: &SpelledReply,
) -> Result<(), WriteFault>
    requires { has_failed output.old.state ≡ false }
    ensures same_writer { output.new.writer.ghost_name ≡ output.old.writer.ghost_name }
    ensures ok { OnOk result (Appends (W.contents output.old.writer.now) (W.contents output.new.writer.now) (ending_of_reply reply.now)) }
    ensures err { OnErr result (AppendsFront (W.contents output.old.writer.now) (W.contents output.new.writer.now) (ending_of_reply reply.now)) }
    ensures not_failed { OnOk result (has_failed output.new.state ≡ false) }
    ensures fault { IfErr result (λ fault. fault ≢ WriteFault.NeverDone → output.new.state ≡ State.Failed fault) }
    ensures not_interrupted { IfErr result (λ fault. fault ≢ WriteFault.Failed ErrorKind.Interrupted) }
    ensures cause { IfErr result (λ fault. IsCaused W.MayAnswer fault output.new.writer.now) }
{
    let mut line = ArrayVec::new();
    render_main_line(&mut line, reply);
    write_whole(output, line.as_slice())?;
    write_journeys(output, reply.journeys())
}

/// Writes the lines of a reply. Where the writer fails, it has taken a front of them.
fn write_reply<W: KnownWriter>(
    output: &mut Output<'_, W>,
    reply: &SpelledReply,
) -> Result<(), WriteFault>
    requires { has_failed output.old.state ≡ false }
    ensures same_writer { output.new.writer.ghost_name ≡ output.old.writer.ghost_name }
    ensures ok { OnOk result (Appends (W.contents output.old.writer.now) (W.contents output.new.writer.now) (spelling_of_reply reply.now)) }
    ensures err { OnErr result (AppendsFront (W.contents output.old.writer.now) (W.contents output.new.writer.now) (spelling_of_reply reply.now)) }
    ensures not_failed { OnOk result (has_failed output.new.state ≡ false) }
    ensures fault { IfErr result (λ fault. fault ≢ WriteFault.NeverDone → output.new.state ≡ State.Failed fault) }
    ensures not_interrupted { IfErr result (λ fault. fault ≢ WriteFault.Failed ErrorKind.Interrupted) }
    ensures cause { IfErr result (λ fault. IsCaused W.MayAnswer fault output.new.writer.now) }
{
    write_postings(output, reply.postings())?;
    write_ending(output, reply)
}

/// Writes the lines of a reply and flushes the writer. Where that fails, it has taken a front of them.
fn write_and_flush<W: KnownWriter>(
    output: &mut Output<'_, W>,
    reply: &SpelledReply,
) -> Result<(), WriteFault>
    requires { has_failed output.old.state ≡ false }
    ensures same_writer { output.new.writer.ghost_name ≡ output.old.writer.ghost_name }
    ensures ok { OnOk result (Appends (W.contents output.old.writer.now) (W.contents output.new.writer.now) (spelling_of_reply reply.now)) }
    ensures err { OnErr result (AppendsFront (W.contents output.old.writer.now) (W.contents output.new.writer.now) (spelling_of_reply reply.now)) }
    ensures flushed { OnOk result (output.new.state ≡ State.Flushed) }
    ensures fault { IfErr result (λ fault. fault ≢ WriteFault.NeverDone → output.new.state ≡ State.Failed fault) }
    ensures not_interrupted { IfErr result (λ fault. fault ≢ WriteFault.Failed ErrorKind.Interrupted) }
    ensures done { OnOk result (IsFlushed W.MayAnswer output.new.writer.now) }
    ensures cause { IfErr result (λ fault. IsCaused W.MayAnswer fault output.new.writer.now) }
{
    write_reply(output, reply)?;
    output.flush()
}

/// Writes a reply and flushes the writer. Where that fails, the writer has taken a front of it. A writer
/// that is interrupted is asked again; one that fails, takes nothing or is not flushed is at fault.
pub fn send<W: KnownWriter>(writer: &mut W, reply: &SpelledReply) -> Result<(), WriteFault>
    ensures ok { OnOk result (Appends (W.contents writer.old) (W.contents writer.new) (spelling_of_reply reply.now)) }
    ensures err { OnErr result (AppendsFront (W.contents writer.old) (W.contents writer.new) (spelling_of_reply reply.now)) }
    ensures not_interrupted { IfErr result (λ fault. fault ≢ WriteFault.Failed ErrorKind.Interrupted) }
    ensures flushed { OnOk result (IsFlushed W.MayAnswer writer.new) }
    ensures cause { IfErr result (λ fault. IsCaused W.MayAnswer fault writer.new) }
{
    write_and_flush(&mut Output::new(writer), reply)
}

/// Writes a line that is no reply, newline included, and flushes the writer, as `send` does.
pub fn send_line<W: KnownWriter>(writer: &mut W, line: &[u8]) -> Result<(), WriteFault>
    ensures ok { OnOk result (Appends (W.contents writer.old) (W.contents writer.new) line.now) }
    ensures err { OnErr result (AppendsFront (W.contents writer.old) (W.contents writer.new) line.now) }
    ensures not_interrupted { IfErr result (λ fault. fault ≢ WriteFault.Failed ErrorKind.Interrupted) }
    ensures flushed { OnOk result (IsFlushed W.MayAnswer writer.new) }
    ensures cause { IfErr result (λ fault. IsCaused W.MayAnswer fault writer.new) }
{
    write_line(&mut Output::new(writer), line)
}

/// Writes a line and flushes the writer. Where that fails, it has taken a front of it.
fn write_line<W: KnownWriter>(output: &mut Output<'_, W>, line: &[u8]) -> Result<(), WriteFault>
    requires { has_failed output.old.state ≡ false }
    ensures same_writer { output.new.writer.ghost_name ≡ output.old.writer.ghost_name }
    ensures ok { OnOk result (Appends (W.contents output.old.writer.now) (W.contents output.new.writer.now) line.now) }
    ensures err { OnErr result (AppendsFront (W.contents output.old.writer.now) (W.contents output.new.writer.now) line.now) }
    ensures flushed { OnOk result (output.new.state ≡ State.Flushed) }
    ensures fault { IfErr result (λ fault. fault ≢ WriteFault.NeverDone → output.new.state ≡ State.Failed fault) }
    ensures not_interrupted { IfErr result (λ fault. fault ≢ WriteFault.Failed ErrorKind.Interrupted) }
    ensures done { OnOk result (IsFlushed W.MayAnswer output.new.writer.now) }
    ensures cause { IfErr result (λ fault. IsCaused W.MayAnswer fault output.new.writer.now) }
{
    write_whole(output, line)?;
    output.flush()
}
