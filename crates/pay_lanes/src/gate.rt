ghost use Rattle.std.specs.Prelude.{◌≡◌, ℕ, Bool, false, not, List, ◌++◌, Option};
ghost use Rattle.pay_lanes.specs.Passing.{Passed, passing};

use pay_shard::{Answer, Entry};
use std::sync::Wait;

/// What a worker has on hand once an entry is answered.
#[derive(Clone, Copy)]
pub struct Load {
    /// How many accounts of its shard have accepted something.
    pub accounts: usize,
    /// How many entries waited when it last looked.
    pub waiting: usize,
}

/// What a worker passes with each entry: once the entry is popped and before it is applied, and once more with the answer,
/// before its lane can have it. It changes nothing of the answer.
pub trait Gate: Drop {
    /// Since it began it has let pass just these entries with their answers, in order; then it refused one more, or did not.
    ghost Holds: { Self → List Passed → Bool → Type 0 };

    /// The bytes that what it keeps lines in had when it began, if they are known. These stay the same.
    ghost began: { Self → Option (List ℕ) };

    /// Whether its worker's shard forgets the items of its journal.
    ghost forgets: { Bool };

    /// The same. Then the worker has no more than a block of them in memory.
    fn forgets() -> bool
        ensures { result ≡ forgets };

    /// Is called by the worker of this shard.
    fn before_job<R: Wait>(&mut self, rt: &R, shard: u8, entry: &Entry)
        ensures same { (passed : List Passed) → Holds self.old passed false → Holds self.new passed false }
        ensures began { began self.new ≡ began self.old };

    /// Is called with each answer, before its lane can have it, and with what the worker then has on hand. Where it says false the answer
    /// is held for good, and the worker takes no more entries.
    fn after_job<R: Wait>(&mut self, rt: &R, load: Load, entry: &Entry, answer: &Answer) -> bool
        ensures passed { (passed : List Passed) → Holds self.old passed false → Holds self.new (passed ++ passing result entry.now answer.now) (not result) }
        ensures began { began self.new ≡ began self.old };
}

/// A gate that is always open, and forgets nothing.
#[derive(Clone, Copy, Drop)]
pub struct OpenGate;

impl Gate for OpenGate {
    ghost use Rattle.std.specs.Prelude.{◌≡◌, false, None};

    ghost Holds = { λ _ _ shut. shut ≡ false };

    ghost began = { λ _. None };

    ghost forgets = { false };

    fn forgets() -> bool {
        false
    }

    fn before_job<R: Wait>(&mut self, _rt: &R, _shard: u8, _entry: &Entry) {}

    fn after_job<R: Wait>(
        &mut self,
        _rt: &R,
        _load: Load,
        _entry: &Entry,
        _answer: &Answer,
    ) -> bool {
        true
    }
}
