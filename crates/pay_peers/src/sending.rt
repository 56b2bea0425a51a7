//! What is sent to a peer.
ghost use Rattle.std.specs.Prelude.{◌≡◌, ◌≤◌, [], length, drop};
ghost use Rattle.pay_peers.specs.Sending.{IsSent};
ghost use Rattle.pay_peers.specs.declared.word.Word.{Word};

use crate::fate::{Fate, fate_of};
use crate::limits::{KEPT_ROOM, TURN_SENDS};
use std::io::{ErrorKind, Write};

/// Takes all bytes away, and gives their room back where it is large.
pub fn empty(bytes: &mut Vec<u8>)
    ensures { bytes.new.items ≡ [] }
{
    bytes.clear();
    if bytes.capacity() > KEPT_ROOM {
        bytes.shrink_to_fit();
    }
}

/// Has a stream take some of what has not left: all but the first bytes, of which this is the number.
fn send_once<W: Write>(stream: &mut W, unsent: &[u8], sent: &mut usize) -> Fate
    requires { sent.old ≤ length unsent.now }
    ensures sent { IsSent (W.contents stream.old) (W.contents stream.new) (drop sent.old unsent.now) (drop sent.new unsent.now) }
    ensures no_word { (word : Word) → result ≡ Fate.Asks word → ⊥ }
{
    let (_, rest) = unsent.split_at(*sent);
    match stream.write(rest) {
        Ok(0) => Fate::Lost(ErrorKind::WriteZero),
        Ok(count) => {
            *sent += count;
            Fate::GoesOn
        }
        Err(error) => fate_of(&error),
    }
}

/// The same as often as the stream takes some. Where it goes on, all has left, or the stream may take more at once.
pub fn send<W: Write>(stream: &mut W, unsent: &mut Vec<u8>, sent: &mut usize) -> Fate
    ensures sent { IsSent (W.contents stream.old) (W.contents stream.new) (drop sent.old unsent.old.items) (drop sent.new unsent.new.items) }
    ensures no_word { (word : Word) → result ≡ Fate.Asks word → ⊥ }
{
    for _ in 0..TURN_SENDS {
        if *sent >= unsent.len() {
            *sent = 0;
            empty(unsent);
            return Fate::GoesOn;
        }
        match send_once(stream, unsent, sent) {
            Fate::GoesOn => {}
            fate => return fate,
        }
    }
    Fate::GoesOn
}
