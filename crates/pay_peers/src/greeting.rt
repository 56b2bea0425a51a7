//! The line with which a connection has to begin.
ghost use Rattle.std.specs.Prelude.{◌≡◌, IfSome};
ghost use Rattle.pay_peers.specs.Greetings.{refusal_of};
ghost use Rattle.pay_peers.specs.Lines.{MayGreet};

use crate::word::{Line, word_at};
use pay_session::Role;
use pay_wire::limits::MOST_LINE_BYTES;
use std::marker::Model;

/// A line with which each connection has to begin: of no more than 128 bytes, and no word of staff.
#[derive(Drop)]
pub struct Greeting {
    line: Line,
}

impl Model for Greeting {
    ghost use Rattle.std.specs.Prelude.{ℕ, List};
    ghost use Rattle.pay_peers.specs.Lines.{MayGreet};

    ghost Value = { List ℕ };

    ghost view = { λ g. g.line };

    ghost invariant = { λ g. MayGreet g.line };
}

impl Greeting {
    /// A line as a greeting.
    #[tactic(auto, using(crate::proofs::Kept::kept_whole))]
    fn new(line: &[u8]) -> Greeting
        requires { MayGreet line.now }
        ensures { result ≡ line.now }
    {
        let mut kept = Line::new();
        kept.extend(line);
        Greeting { line: kept }
    }

    /// A line as a greeting, if it may be one.
    pub fn of(line: &[u8]) -> Option<Greeting>
        ensures { IfSome result (λ greeting. greeting ≡ line.now) }
    {
        if line.len() > MOST_LINE_BYTES || word_at(Role::All, line).is_some() {
            return None;
        }
        Some(Greeting::new(line))
    }

    /// The same for one more connection.
    pub fn again(&self) -> Greeting
        ensures { result ≡ self.now }
    {
        Greeting::new(self.line.text())
    }

    /// Its line.
    pub fn text(&self) -> &[u8]
        ensures line { result.now ≡ self.now }
        ensures fits { MayGreet self.now }
    {
        self.line.text()
    }
}

/// The reply to a first line that is no greeting: 50 `BadLine`, or 51 `LongLine` where it is longer than a line may be.
pub fn refusal_of(line: &[u8]) -> &[u8]
    ensures { result.now ≡ refusal_of line.now }
{
    if line.len() <= MOST_LINE_BYTES {
        b"NO 50 BadLine\n"
    } else {
        b"NO 51 LongLine\n"
    }
}
