//! What is true of the Hopper rule itself.

ghost use Rattle.std.specs.Prelude.{◌≡◌, ℕ, Bool, List, None};
ghost use Rattle.pay_rules.specs.declared.tap.Touch.{Touch};
ghost use Rattle.pay_rules.specs.Hopper.{IsPayingSet, instants_of, paying_marks};
ghost use Rattle.pay_hopper.specs.LastPaid.{marks_by_last};
ghost use Rattle.pay_hopper.specs.Laws.{MarksInStretches, LastInStretches, PayingTapsRestart, LastPaidIsMarked, LastMarkedFromAfter};

/// The rule speaks of paying taps to say which taps pay, and still there is one such set for any
/// instants, and it can be computed.
pub fn one_set()
    ensures there { (hopper : ℕ) (utcs : List ℕ) → IsPayingSet hopper utcs (paying_marks hopper utcs) }
    ensures one { (hopper : ℕ) (utcs : List ℕ) (marks others : List Bool) →
        IsPayingSet hopper utcs marks → IsPayingSet hopper utcs others → marks ≡ others }
{}

/// Whoever goes over bus taps one by one, and remembers only the last that paid, finds that set.
pub fn by_the_last()
    ensures { (hopper : ℕ) (taps : List Touch) → marks_by_last hopper None taps ≡ paying_marks hopper (instants_of taps) }
{}

/// Bus taps may be marked in stretches: of the earlier taps, only the last that paid counts for the later.
pub fn in_stretches()
    ensures marks { MarksInStretches }
    ensures last { LastInStretches }
{}

/// Where a bus tap pays by either of two moments of the last one before it that paid, it and all taps
/// after it have the same marks by both.
pub fn paying_taps_restart()
    ensures { PayingTapsRestart }
{}

/// The last bus tap that paid is the last that is marked, and that one is found from the end.
pub fn last_paid_by_marks()
    ensures same { LastPaidIsMarked }
    ensures from_after { LastMarkedFromAfter }
{}
