ghost use Rattle.std.specs.Prelude.{◌≡◌, ◌≤◌, ◌+◌, [], ◌++◌, List, ℕ, length};
ghost use Rattle.pay_session.specs.Requests.{kept_of, request_of, IsAsked};
ghost use Rattle.pay_wire.specs.declared.limits.TheConstants.{MOST_LINE_BYTES};

use crate::request::{Request, request_of};
use arrayvec::ArrayVec;
use pay_wire::limits::MOST_LINE_BYTES;
use std::marker::Model;

/// One byte more than a line may have, so that a line which is too long shows.
const KEPT_BYTES: usize = MOST_LINE_BYTES + 1;

/// The line that is being read, as much of it as is kept.
#[derive(Drop)]
pub struct BegunLine {
    bytes: ArrayVec<u8, KEPT_BYTES>,
}

impl Model for BegunLine {
    ghost Value = { List ℕ };

    ghost view = { λ l. l.bytes.items };

    ghost invariant = { λ l. length l.bytes.items ≤ MOST_LINE_BYTES + 1 };
}

impl BegunLine {
    /// An empty line.
    pub fn new() -> BegunLine
        ensures { result ≡ [] }
    {
        BegunLine {
            bytes: ArrayVec::new(),
        }
    }

    /// Adds bytes at the end, as far as they are kept.
    pub fn extend(&mut self, more: &[u8])
        ensures { self.new ≡ kept_of (self.old ++ more.now) }
    {
        let room = KEPT_BYTES - self.bytes.len();
        let fitting = &more[..room.min(more.len())];
        let _ = self.bytes.try_extend_from_slice(fitting);
    }

    /// Begins a new line.
    pub fn clear(&mut self)
        ensures { self.new ≡ [] }
    {
        self.bytes.clear();
    }

    /// What the line asks for that ends with these bytes. A new line begins.
    pub fn finish(&mut self, text: &[u8]) -> Request
        ensures asked { result ≡ request_of (self.old ++ text.now) }
        ensures in_range { IsAsked result }
        ensures line { self.new ≡ [] }
    {
        // A line that came whole is read where it lies.
        if self.as_slice().is_empty() {
            return request_of(text);
        }
        self.extend(text);
        let request = request_of(self.as_slice());
        self.clear();
        request
    }

    /// The bytes so far.
    pub fn as_slice(&self) -> &[u8]
        ensures value { result.now ≡ self.now }
        ensures kept { length result.now ≤ MOST_LINE_BYTES + 1 }
    {
        self.bytes.as_slice()
    }
}
