//! What becomes of a connection.
ghost use Rattle.std.specs.Prelude.{◌≡◌};
ghost use Rattle.pay_peers.specs.declared.word.Word.{Word};

use crate::word::Word;
use std::io;
use std::io::ErrorKind;

/// What becomes of a connection after its turn.
#[derive(Drop)]
pub enum Fate {
    /// It waits until there is more to read, or room to write.
    Waits,
    /// It may go on at once.
    GoesOn,
    /// So it may, once what staff ask of the service is done.
    Asks(Word),
    /// It was lost, and why: its peer did not end it.
    Lost(ErrorKind),
    /// It is over.
    Ends,
}

/// What becomes of a connection by a call on its stream that failed.
pub fn fate_of(error: &io::Error) -> Fate
    ensures no_word { (word : Word) → result ≡ Fate.Asks word → ⊥ }
{
    match error.kind() {
        ErrorKind::WouldBlock => Fate::Waits,
        ErrorKind::Interrupted => Fate::GoesOn,
        why => Fate::Lost(why),
    }
}
