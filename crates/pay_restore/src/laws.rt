//! What is restored of an archive. Each law is the contract of a function that does nothing: a caller whose proof needs a
//! law calls its function.
ghost use Rattle.pay_restore.specs.Laws.{RestoredIsTold, ArchivedIsRestored, RestoredIsAsBefore, ValuesMakeSet};

use pay_rules::Numbered;

/// Nothing is left out, and nothing made up: whatever is restored of rows is just the taps and corrections that they tell.
pub fn nothing_is_lost()
    ensures { RestoredIsTold }
{}

/// What was archived is restored: of taps and corrections that accounts accepted by these editions, the rows are not refused,
/// and each account has just its own again.
pub fn archived_is_restored()
    ensures { ArchivedIsRestored }
{
    pay_set_rows::laws::taps_back();
    pay_set_rows::laws::fixes_back();
}

/// And it is as it was: an account that had accepted just its own of the archive has accepted the same again. One that has
/// nothing there has accepted nothing.
pub fn restored_as_it_was()
    ensures { RestoredIsAsBefore }
{}

/// A set is just what a list has of an account where its values are those of the list that are the account's, in whatever
/// order. So an account's `Sets`, beside an archive that has these of it, give what `restored_as_it_was` asks for.
pub fn sets_by_values<T: Numbered>()
    ensures { ValuesMakeSet T.number }
{}
