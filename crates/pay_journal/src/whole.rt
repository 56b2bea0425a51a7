//! How much of a text are whole lines.
ghost use Rattle.std.specs.Prelude.{◌≡◌, ◌+◌, length};
ghost use Rattle.pay_session.specs.Words.{rest_of};

use memchr::memrchr;

/// How many bytes the whole lines of a text have, with their newlines.
pub fn whole_bytes(text: &[u8]) -> u64
    ensures { result + length (rest_of text.now) ≡ length text.now }
{
    match memrchr(b'\n', text) {
        Some(place) => place as u64 + 1,
        None => 0,
    }
}
