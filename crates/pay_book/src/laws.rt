//! Laws of the boardings that are kept. Each is the contract of a function that does nothing: a caller whose proof needs a
//! law calls its function.
ghost use Rattle.pay_book.specs.Boardings.{BoardedByAll, MarkedWithIt, MarkedWithoutIt, RoomWithIt, RoomWithoutIt};
ghost use Rattle.std.specs.Prelude.{List, [], ◌≡◌};
ghost use Rattle.pay_tables.specs.Words.{FareEditions};
ghost use Rattle.pay_book.specs.Books.{BookParts};
ghost use Rattle.pay_book.specs.MarkedTaps.{ChangesEachKind, ChangesArePossible};
ghost use Rattle.pay_book.specs.Stored.{IsConsistent, IsStored, TapIsChange, FixIsChange, ChangeIsPossible, ChangeIsMade, ChangeDisturbs};

use pay_rules::{Fix, Tap};

/// Boardings by the last one that paid are those by the Hopper rule.
pub(crate) fn boarded_by_all()
    ensures { BoardedByAll }
{
    pay_hopper::laws::by_the_last();
}

/// Marks that are kept are those of the taps that are there, once a tap has entered or left and what it disturbs is marked.
pub(crate) fn stored_marks()
    ensures with_it { MarkedWithIt }
    ensures without_it { MarkedWithoutIt }
    ensures room_with_it { RoomWithIt }
    ensures room_without_it { RoomWithoutIt }
{
    pay_taps::laws::places();
}

/// What a change makes of an account's effective taps it makes of those by rail and of those on buses.
pub(crate) fn changes()
    ensures each_kind { ChangesEachKind }
    ensures possible { ChangesArePossible }
    ensures can_be { ChangeIsPossible }
    ensures made { ChangeIsMade }
    ensures disturbs { ChangeDisturbs }
{
    pay_taps::laws::places();
    pay_taps::laws::timed();
}

/// A tap that is accepted changes the effective taps of its account by at most one.
pub(crate) fn tap_is_change()
    ensures { TapIsChange }
{
    pay_rule_laws::sets::judgements::<Tap>();
    pay_rule_laws::sets::one_more::<Tap>();
    pay_fix::laws::own_numbers();
    pay_fix::laws::tap_changes();
}

/// And so does a correction.
pub(crate) fn fix_is_change()
    ensures { FixIsChange }
{
    pay_rule_laws::sets::judgements::<Fix>();
    pay_rule_laws::sets::one_more::<Fix>();
    pay_fix::laws::own_numbers();
    pay_fix::laws::fix_changes();
}

/// What a book keeps is right: its stored journeys by rail, the marks of its boardings and the sums of its days are those of the
/// definitions over all that it has accepted, whatever came, and in whatever order.
pub fn stored()
    ensures { (editions : FareEditions) (book : BookParts) → IsConsistent editions book → IsStored editions book }
{
    pay_links::laws::kept_as_marks();
    pay_hopper::laws::by_the_last();
    boarded_by_all();
}
