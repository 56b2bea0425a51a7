//! What quotes are. Each law is the contract of a function that does nothing: a caller whose proof needs a law calls its function.
ghost use Rattle.std.specs.List.{range_with_len};
ghost use Rattle.std.specs.Prelude.{◌≡◌, ◌≤◌, ℕ, length, sum};
ghost use Rattle.pay_money.specs.declared.limits.TheConstants.{OPERATORS};
ghost use Rattle.pay_day.specs.Words.{IsDay, monday, sunday};
ghost use Rattle.pay_day.specs.declared.limits.TheConstants.{DAYS_PER_WEEK};
ghost use Rattle.pay_rules.specs.Accepted.{Accepted};
ghost use Rattle.pay_rules.specs.Prices.{days_through};
ghost use Rattle.pay_rules.specs.Quotes.{quote, carried};
ghost use Rattle.pay_account.specs.Laws.{NothingForNothing};

use pay_tables::Editions;

/// What is owed is shared among the operators to the penny: it is never more than they carried together, the
/// shares are all of it, and an operator that carried nothing gets nothing.
pub fn quotes(editions: &Editions)
    ensures operators { (account : ℕ) (accepted : Accepted) (through : ℕ) → length (quote editions.now account accepted through).shares ≡ OPERATORS }
    ensures covered { (account : ℕ) (accepted : Accepted) (through : ℕ) →
        (quote editions.now account accepted through).due ≤ sum (carried editions.now accepted through) }
    ensures together { (account : ℕ) (accepted : Accepted) (through : ℕ) →
        sum (quote editions.now account accepted through).shares ≡ (quote editions.now account accepted through).due }
    ensures nothing_for_nothing { NothingForNothing editions.now }
{
    pay_week::day_laws::bounds();
    pay_week::laws::bounds();
    pay_shares::laws::nothing_is_lost(editions.own());
    pay_money::laws::nothing_is_lost();
    pay_money::laws::each_in_its_place();
    pay_money::laws::nothing_for_nothing();
}

/// A week has seven days, from its Monday on, which is its Sunday's Monday too.
pub fn week_days()
    ensures days { (day : ℕ) → IsDay day → days_through (sunday day) ≡ range_with_len (monday day) DAYS_PER_WEEK }
    ensures monday { (day : ℕ) → IsDay day → monday (sunday day) ≡ monday day }
{}
