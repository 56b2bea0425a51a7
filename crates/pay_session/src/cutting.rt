//! Texts as lines.
ghost use Rattle.std.specs.Prelude.{◌≡◌, ◌++◌, ◌∷◌, false, IfSome, IfNone};
ghost use Rattle.pay_session.specs.Requests.{has_newline};

use memchr::memchr;

/// The bytes before the first newline, and those after it.
pub fn cut(bytes: &[u8]) -> Option<(&[u8], &[u8])>
    ensures parts { IfSome result (λ parts. bytes.now ≡ parts.0.now ++ 10 ∷ parts.1.now) }
    ensures line { IfSome result (λ parts. has_newline parts.0.now ≡ false) }
    ensures none { IfNone result (has_newline bytes.now ≡ false) }
{
    let end = memchr(b'\n', bytes)?;
    Some((&bytes[..end], &bytes[end + 1..]))
}
