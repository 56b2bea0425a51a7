//! What commands and closes come to, in whatever order. Each law is the contract of a function that does nothing: a
//! caller whose proof needs a law calls its function.
ghost use Rattle.std.specs.Prelude.{◌≡◌, ◌≢◌, ℕ, List, Err};
ghost use Rattle.std.specs.FinMap.{empty};
ghost use Rattle.pay_tables.specs.Words.{FareEditions};
ghost use Rattle.pay_rules.specs.declared.post_fault.PostFault.{PostFault};
ghost use Rattle.pay_rules.specs.declared.post_fault.PostFault.TheVariants as fault;
ghost use Rattle.pay_postings.specs.Words.{total, net, shares_posted, ArePaid};
ghost use Rattle.pay_shard.specs.declared.item.Item.{Item};
ghost use Rattle.pay_shard.specs.Words.{replay};
ghost use Rattle.pay_close.specs.Close.{new_books, close, IsLate, Event, history, postings_after, answered, AreQuotes};
ghost use Rattle.pay_histories.specs.Payments.{NetIsDueByLast, SharesAreByLast, ClosedNetIsDue, ClosedSharesAreDue};
ghost use Rattle.pay_histories.specs.From.{IsOfOwn, RefusedLateFrom, ClosedNetIsDueFrom, ClosedSharesAreDueFrom, RefusedLateFromJournal};
ghost use Rattle.pay_histories.specs.Restores.{IsPlaced, IsCommand, ArchiveIsRestored, ClosedIsRestored};

use pay_shard::Command;
use pay_tables::Editions;

/// A close never finds that something else is due than was posted for the same version and day, nor that the archive has
/// another tap or correction of a number: what was answered and what was closed before agree.
pub fn closes_agree()
    ensures as_due { (editions : FareEditions) (events : List Event) (day : ℕ) → close editions (history editions events) day ≢ Err fault.QuoteDiffers }
    ensures as_archived { (editions : FareEditions) (events : List Event) (day : ℕ) → close editions (history editions events) day ≢ Err fault.ArchiveConflict }

    // The one refusal that there may be is of a close that comes too late.
    ensures late { (editions : FareEditions) (events : List Event) (day : ℕ) (why : PostFault) → close editions (history editions events) day ≡ Err why → IsLate day why }
{}

/// Whatever was answered and closed: what an account was charged for a week, less what it was given back, is what is due by
/// the quote that was posted last, and what fell to each operator is its share, all of it together.
pub fn payments(editions: &Editions)
    ensures net { NetIsDueByLast editions.now }
    ensures by_operator { SharesAreByLast editions.now }
    ensures together { (events : List Event) (account week : ℕ)
        → total (shares_posted account week (postings_after editions.now events)) ≡ net account week (postings_after editions.now events) }
{
    pay_account::laws::quotes(editions);
}

/// Once a day is closed, each account with an accepted tap or Fill on a day of its week so far was charged, less what it was
/// given back, just what is due through that day by all that it has accepted; and each operator got its share.
pub fn closed_days(editions: &Editions)
    ensures net { ClosedNetIsDue editions.now }
    ensures by_operator { ClosedSharesAreDue editions.now }
{
    pay_account::laws::quotes(editions);
}

/// Where a ledger agrees with what accounts have accepted, whatever is answered and closed after that, a close is refused for nothing
/// but its day: for no other due and no other content. And once a day is closed, each account that the close selects was charged,
/// less what it was given back, just what is due through that day by all that it has accepted; and each operator got its share.
pub fn closes_agree_from(editions: &Editions)
    ensures late { RefusedLateFrom editions.now }

    // For what was charged, the postings of that ledger have to be such as were posted one after another.
    ensures net { ClosedNetIsDueFrom editions.now }
    ensures by_operator { ClosedSharesAreDueFrom editions.now }
{
    pay_account::laws::quotes(editions);
    pay_set_rows::laws::same_row();
}

/// What accounts have accepted by a journal from its beginning stands at its own numbers, and is of its account: so closes_agree_from
/// holds from there.
pub fn own_numbers()
    ensures { (editions : FareEditions) (items : List Item) → IsOfOwn (replay editions empty items) }
{}

/// Where a ledger agrees with what a journal gives back from its beginning, whatever is answered and closed after that, a close is
/// refused for nothing but its day.
pub fn closes_agree_from_journal()
    ensures { (editions : FareEditions) → RefusedLateFromJournal editions }
{
    pay_set_rows::laws::same_row();
}

/// A close changes nothing of what accounts have accepted: the state after any history is that of a machine which answered its
/// commands alone.
pub fn states()
    ensures { (editions : FareEditions) (events : List Event) → (history editions events).state ≡ replay editions empty (answered events) }
{}

/// Whatever was answered and closed, the postings of the ledger were posted one after another, so that as much is posted as
/// was due at each of them. That each quote is in its ranges is what its type says.
pub fn paid()
    ensures { (editions : FareEditions) (events : List Event) → AreQuotes editions new_books events → ArePaid (postings_after editions events) }
{
    pay_postings::laws::paid();
}

/// What closes archived is restored, whatever was answered and closed, as long as each command has its numbers in their ranges: the
/// rows of the archive are not refused, and each account has just its own of it again.
pub fn archives()
    ensures restored { ArchiveIsRestored }

    // Once a day is closed, each account that the close selects is restored with all that it has accepted.
    ensures as_they_are { ClosedIsRestored }
{
    pay_restore::laws::archived_is_restored();
    pay_restore::laws::restored_as_it_was();
}

/// Each command has its numbers in these ranges by its type, if the place of a tap or of a Fill counts from 1, as it does where a line
/// spells it.
pub fn commands(command: Command)
    ensures { IsPlaced command → IsCommand command }
{}
