//! Texts as they are written.
ghost use Rattle.std.specs.Prelude.{◌≡◌, IfErr, OnOk, OnErr};
ghost use Rattle.std.specs.Io.KnownBytes.{Appends};
ghost use Rattle.pay_wire.specs.Words.{AppendsFront, IsFlushed, HasFault};

use crate::fault::CheckFault;
use pay_wire::{KnownWriter, send_line};

/// Writes a text of whole lines and flushes the writer. Where that fails, it has taken a front of the text.
pub fn write_text<W: KnownWriter>(writer: &mut W, text: &[u8]) -> Result<(), CheckFault>
    ensures ok { OnOk result (Appends (W.contents writer.old) (W.contents writer.new) text.now) }
    ensures err { OnErr result (AppendsFront (W.contents writer.old) (W.contents writer.new) text.now) }
    ensures fault { IfErr result (λ fault. fault ≡ CheckFault.Output) }
    ensures flushed { OnOk result (IsFlushed W.MayAnswer writer.new) }
    ensures cause { OnErr result (HasFault W.MayAnswer writer.new) }
{
    match send_line(writer, text) {
        Ok(()) => Ok(()),
        Err(_) => Err(CheckFault::Output),
    }
}
