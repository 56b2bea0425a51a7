//! Laws of the order of touches. Each is the contract of a function that does nothing: a caller whose
//! proof needs a law calls its function.
ghost use Rattle.std.specs.Prelude.{◌≡◌, ◌∷◌, Bool, List, filter, IsPermutation, IsSorted};
ghost use Rattle.std.specs.List.Sorted.{IsStable};
ghost use Rattle.pay_rules.specs.declared.tap.Touch.{Touch};
ghost use Rattle.pay_rules.specs.Order.{touch_cmp, cmp_by, put_in, in_order, in_order_by, IsInOrder, HaveOwnNumbers};
ghost use Rattle.pay_taps.specs.Timelines.{AreTimed, PutInAtPlace, StandsAtPlace, TakenOutAtPlace, PlaceWithoutIt, PutInAgain, SomeWithOneMore, OwnNumberAmongSome};

/// To put in order moves touches and does nothing else.
pub fn order()
    ensures same_touches { (list : List Touch) → IsPermutation list (in_order list) }
    ensures in_order { (list : List Touch) → IsInOrder (in_order list) }
    ensures ties_stay { (list : List Touch) → IsStable touch_cmp list (in_order list) }
{}

/// Touches with numbers of their own have one order, in whatever arrangement they come.
pub fn order_forgets_arrival()
    ensures { (list other : List Touch) → HaveOwnNumbers list → IsPermutation list other
        → in_order list ≡ in_order other }
{}

/// What has a touch, as a journey has its first one, has one order too: a list in order, in which what
/// ties stands as in another list, is that other list in order.
pub fn sorting<X>()
    ensures { (touch : X → Touch) (list sorted : List X) → IsSorted (cmp_by touch) sorted → IsStable (cmp_by touch) list sorted
        → sorted ≡ in_order_by touch list }
{}

/// A touch that is put in among others in order stands at its place, and all is as before where it is taken out again. Some of
/// them, as those by rail, are with it what they were, and it among them if it is one of these.
pub fn places()
    ensures put_in { PutInAtPlace }
    ensures stands { StandsAtPlace }
    ensures taken_out { TakenOutAtPlace }
    ensures place_kept { PlaceWithoutIt }
    ensures again { PutInAgain }
    ensures some { SomeWithOneMore }
{}

/// Some of the touches of a timeline may be a timeline, and all of them with one more of another number.
pub fn timed()
    ensures some { (p : Touch → Bool) (touches : List Touch) → AreTimed touches → AreTimed (filter p touches) }
    ensures with_one_more { (touch : Touch) (touches : List Touch) → AreTimed touches → HaveOwnNumbers (touch ∷ touches) → AreTimed (put_in touch touches) }
    ensures own_number { OwnNumberAmongSome }
{}
