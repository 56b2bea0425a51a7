//! Frames of a server, each read whole.
ghost use Rattle.std.specs.Prelude.{◌≡◌, length, OnOk};
ghost use Rattle.pay_jetstream.specs.Taken.{IsWhole, Takes};

use pay_follow::LogFault;
use pay_nats::limits::MOST_FRAME_BYTES;
use pay_nats::read_frame;
use std::io::BufRead;

/// Reads the next frame, in place of what was held. It ends with a newline, as each of its lines does: so what is read up to newlines
/// goes no further than the frame.
pub(crate) fn read_whole<R: BufRead>(reader: &mut R, held: &mut Vec<u8>) -> Result<(), LogFault>
    ensures whole { OnOk result (IsWhole held.new.items) }
    ensures taken { OnOk result (Takes (R.remaining reader.old) (R.remaining reader.new) held.new.items) }
{
    held.clear();
    for _ in 0..MOST_FRAME_BYTES {
        match reader.read_until(b'\n', held) {
            Ok(0) | Err(_) => return Err(LogFault::NotReached),
            Ok(_) => {}
        }
        match read_frame(held) {
            Ok(Some((_, len))) => return ends_there(held, len),
            Ok(None) => {}
            Err(_) => return Err(LogFault::NotUnderstood),
        }
    }
    Err(LogFault::NotUnderstood)
}

/// Whether a frame of so many bytes is all of what was read.
fn ends_there(held: &[u8], len: usize) -> Result<(), LogFault>
    ensures { OnOk result (len ≡ length held.now) }
{
    if len == held.len() {
        Ok(())
    } else {
        Err(LogFault::NotUnderstood)
    }
}
