//! How often a line of one kind is said.
ghost use Rattle.std.specs.Prelude.{◌≡◌, ◌↔◌, OnSome, IsNone, IsSome, IfSome};
ghost use Rattle.pay_log.specs.Limits.{IsDue, one_more};

/// At most one line a second of one kind, and how many were left out since the last one.
#[derive(Clone, Copy)]
pub struct Limit {
    /// When the last one was said, in milliseconds of a clock that never goes back.
    pub last: Option<u128>,
    /// How many were left out since then.
    pub left_out: u64,
}

/// For how many milliseconds after a line no other of its kind is said.
const BETWEEN: u128 = 1_000;

impl Limit {
    /// Of a kind of which none was said.
    pub fn new() -> Limit
        ensures last { IsNone result.last }
        ensures left_out { result.left_out ≡ 0 }
    {
        Limit {
            last: None,
            left_out: 0,
        }
    }

    /// Asks whether a line may be said now. If so, how many were left out before it: it is the last one from now on. If not, it is left out.
    pub fn ask(&mut self, now: u128) -> Option<u64>
        ensures due { IsSome result ↔ IsDue self.old.last now }
        ensures told { IfSome result (λ left_out. left_out ≡ self.old.left_out) }
        ensures said { OnSome result ((self.new.last ≡ Some now) × (self.new.left_out ≡ 0)) }
        ensures left_out { IsNone result → (self.new.last ≡ self.old.last) × (self.new.left_out ≡ one_more self.old.left_out) }
    {
        if let Some(last) = self.last {
            if now.saturating_sub(last) < BETWEEN {
                self.left_out = self.left_out.saturating_add(1);
                return None;
            }
        }
        let left_out = self.left_out;
        self.last = Some(now);
        self.left_out = 0;
        Some(left_out)
    }
}
