//! Requests to a server, each written whole.
ghost use Rattle.std.specs.Prelude.{OnOk};
ghost use Rattle.std.specs.Io.KnownBytes.{Appends};
ghost use Rattle.pay_nats.specs.Requests.{asked, request_bytes};

use pay_follow::LogFault;
use pay_nats::{Request, write_request};
use pay_wire::{KnownWriter, send_line};

/// Writes a request, and flushes the writer.
pub(crate) fn write<W: KnownWriter>(
    writer: &mut W,
    out: &mut Vec<u8>,
    request: &Request<'_>,
) -> Result<(), LogFault>
    ensures { OnOk result (Appends (W.contents writer.old) (W.contents writer.new) (request_bytes (asked request.now))) }
{
    out.clear();
    if let Err(_) = write_request(out, request) {
        return Err(LogFault::Memory);
    }
    match send_line(writer, out) {
        Ok(()) => Ok(()),
        Err(_) => Err(LogFault::NotReached),
    }
}
