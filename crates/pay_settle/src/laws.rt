//! What the sums of postings come to together. Each law is the contract of a function that does nothing: a caller whose proof needs a law
//! calls its function.
ghost use Rattle.pay_settle.specs.Laws.{AccountsAreAll, OperatorsAreAll, PaidAddUp, SumsAreNet, WeeksAreAll};

/// All that was charged less what was given back is the sum over the operators, over the weeks, and over the accounts and weeks.
pub fn all_together()
    ensures operators { OperatorsAreAll }
    ensures weeks { WeeksAreAll }
    ensures accounts { AccountsAreAll }
{}

/// The sum of an account and a week is what its ledger tells, and no posting is refused that was made by posting quotes.
pub fn as_posted()
    ensures net { SumsAreNet }
    ensures paid { PaidAddUp }
{}
