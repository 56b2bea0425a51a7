//! Laws of sets of what has numbers.
ghost use Rattle.std.specs.Prelude.{◌≡◌, ◌≢◌, ◌↔◌, ℕ, ◌<◌, ◌≤◌};
ghost use Rattle.std.specs.FinMap as map;
ghost use Rattle.std.specs.List.{AllByRecursion};
ghost use Rattle.pay_rules.specs.Numbers.{ByNumber, IsNumbered, judged};
ghost use Rattle.pay_rule_laws.specs.SetLaws.{OneMoreIsAmong, OrderIsForgotten};

use pay_rules::{Addition, AdditionFault, Numbered};

/// What each judgement of one more means, in a set of at most `most`.
pub fn judgements<T: Numbered>()
    // There is none of its number, and there is room.
    ensures added { (most : ℕ) (set : ByNumber T) (x : T) → (judged T.same T.number most set x ≡ Ok Addition.Added)
        ↔ ((map.get set (T.number x) ≡ None) × (map.len set < most)) }

    // The very same is there.
    ensures repeat { (most : ℕ) (set : ByNumber T) (x : T) → (judged T.same T.number most set x ≡ Ok Addition.Repeat)
        ↔ (map.get set (T.number x) ≡ Some x) }

    // Another one of its number is there.
    ensures conflict { (most : ℕ) (set : ByNumber T) (x : T) → (judged T.same T.number most set x ≡ Err AdditionFault.Conflict)
        ↔ ((other : T) × (map.get set (T.number x) ≡ Some other) × (other ≢ x)) }

    // There is none of its number, and no room.
    ensures full { (most : ℕ) (set : ByNumber T) (x : T) → (judged T.same T.number most set x ≡ Err AdditionFault.Full)
        ↔ ((map.get set (T.number x) ≡ None) × (most ≤ map.len set)) }
    ensures never_memory { (most : ℕ) (set : ByNumber T) (x : T) → judged T.same T.number most set x ≢ Err AdditionFault.Memory }
{}

/// A set with one more: it stands somewhere among the others, and all is as before where it is taken out again.
pub fn one_more<T: Numbered>()
    ensures numbered { (most : ℕ) (set : ByNumber T) (x : T) → IsNumbered T.number most set → judged T.same T.number most set x ≡ Ok Addition.Added
        → IsNumbered T.number most (map.insert set (T.number x) x) }
    ensures among { OneMoreIsAmong T.number }
    ensures taken_out { (set : ByNumber T) (x : T) → map.get set (T.number x) ≡ None
        → map.remove (map.insert set (T.number x) x) (T.number x) ≡ set }
{}

/// What a set has at a number is the one that has it: where there is none, none of the set has that number.
pub fn numbers<T: Numbered>()
    ensures { (most : ℕ) (set : ByNumber T) (n : ℕ × ℕ) → IsNumbered T.number most set → map.get set n ≡ None
        → AllByRecursion (λ x. T.number x ≢ n) (map.values set) }
{}

/// A set forgets in what order additions came, and how often: where those of one list are taken one after
/// another, then so are those of another list that has the same ones, and the set is the same in the end.
pub fn order_forgets_arrival<T: Numbered>()
    ensures { OrderIsForgotten T.same T.number }
{}
