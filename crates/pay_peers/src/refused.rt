//! Refused lines that are kept.
ghost use Rattle.std.specs.Prelude.{◌≡◌, ◌<◌, ◌++◌, OnOk, IfOk, [], None};
ghost use Rattle.std.specs.List.{flat_map};
ghost use Rattle.pay_peers.specs.Refused.{escaped, hex_digit, is_by, kept_number, noted, refused_line};

use std::alloc::{AllocError, Global};

/// Whether a reply begins so.
#[tactic(auto, unfolding(crate::specs::Refused::is_by))]
fn is_by(reply: &[u8], front: &[u8]) -> bool
    ensures { result ≡ is_by reply.now front.now }
{
    reply.starts_with(front)
}

/// The number of the refusal that a reply gives, if its line is kept: 1, 15, from 20 to 23, 50 and 51 are such.
fn kept_number(reply: &[u8]) -> Option<u64>
    ensures { result ≡ kept_number reply.now }
{
    if is_by(reply, b"NO 1 ") {
        Some(1)
    } else if is_by(reply, b"NO 15 ") {
        Some(15)
    } else if is_by(reply, b"NO 20 ") {
        Some(20)
    } else if is_by(reply, b"NO 21 ") {
        Some(21)
    } else if is_by(reply, b"NO 22 ") {
        Some(22)
    } else if is_by(reply, b"NO 23 ") {
        Some(23)
    } else if is_by(reply, b"NO 50 ") {
        Some(50)
    } else if is_by(reply, b"NO 51 ") {
        Some(51)
    } else {
        None
    }
}

/// A digit of base 16.
fn hex_digit(digit: u8) -> u8
    requires { digit < 16 }
    ensures { result ≡ hex_digit digit }
{
    b"0123456789abcdef"[usize::from(digit)]
}

/// Adds a byte at the end, as it is kept.
fn push_escaped(kept: &mut Vec<u8>, byte: u8) -> Result<(), AllocError>
    ensures { OnOk result (kept.new.items ≡ kept.old.items ++ escaped byte) }
{
    if byte == b'\\' {
        kept.extend_from_slice(b"\\\\")
    } else if b' ' <= byte && byte <= b'~' {
        kept.extend_from_slice(&[byte])
    } else {
        kept.extend_from_slice(&[b'\\', b'x', hex_digit(byte / 16), hex_digit(byte % 16)])
    }
}

/// Adds bytes at the end, as they are kept.
fn push_line(kept: &mut Vec<u8>, line: &[u8]) -> Result<(), AllocError>
    ensures { OnOk result (kept.new.items ≡ kept.old.items ++ flat_map escaped line.now) }
{
    for byte in line {
        push_escaped(kept, *byte)?;
    }
    Ok(())
}

/// A line that was refused by a number at an instant, as it is kept.
fn refused_line(
    alloc: Global,
    number: u64,
    instant: u64,
    line: &[u8],
) -> Result<Vec<u8>, AllocError>
    ensures { IfOk result (λ kept. kept.items ≡ refused_line number instant line.now) }
{
    let mut front = String::new(alloc);
    write!(front, "{number} {instant} ")?;
    let mut kept = front.into_bytes();
    push_line(&mut kept, line)?;
    kept.push(b'\n').map_err(AllocError::from)?;
    Ok(kept)
}

/// The lines of a peer that were refused and are not kept yet, where such lines are kept.
#[derive(Drop)]
pub struct Refused {
    alloc: Global,
    /// The lines as they are kept, each with its newline.
    pub lines: Vec<u8>,
    /// The instant at which a line is refused now, in seconds of the Unix clock. Without one no lines are kept.
    pub instant: Option<u64>,
}

impl Refused {
    /// None yet.
    pub fn new(alloc: Global) -> Refused
        ensures lines { result.lines.items ≡ [] }
        ensures instant { result.instant ≡ None }
    {
        Refused {
            alloc,
            lines: Vec::new(alloc),
            instant: None,
        }
    }

    /// Notes a line, if its reply says that it is kept.
    pub fn note(&mut self, reply: &[u8], line: &[u8]) -> Result<(), AllocError>
        ensures instant { self.new.instant ≡ self.old.instant }
        ensures noted { OnOk result (self.new.lines.items ≡ self.old.lines.items ++ noted self.old.instant reply.now line.now) }
    {
        let Some(instant) = self.instant else {
            return Ok(());
        };
        let Some(number) = kept_number(reply) else {
            return Ok(());
        };
        let kept = refused_line(self.alloc, number, instant, line)?;
        self.lines.extend_from_slice(kept.as_slice())
    }
}
