ghost use Rattle.std.specs.Prelude.{◌≡◌, ◌+◌, ◌≤◌, ◌↔◌, length, sum, IsTrue, IsSome, IfSome};
ghost use Rattle.pay_day.specs.Words.{IsDay, monday};
ghost use Rattle.pay_rules.specs.declared.limits.TheConstants.{MOST_TAPS, MOST_FIXES};
ghost use Rattle.pay_money.specs.declared.limits.TheConstants.{OPERATORS, MOST_MONEY};
ghost use Rattle.pay_rules.specs.QuoteParts.{IsEditionDay, IsQuote, IsWeekThrough};

use crate::limits::MOST_TOUCHES;
use pay_day::limits::{FIRST_DAY, LAST_DAY};
use pay_day::monday;
use pay_money::Pence;
use pay_money::limits::{MOST_MONEY, OPERATORS};
use std::marker::Model;

/// What an account owes for a week through one of its days, and what of it each operator gets: the shares
/// sum to what is due. In a contract it is a record of its numbers.
#[derive(Clone, Debug, Drop, PartialEq, Eq)]
pub struct Quote {
    account: u32,
    week: u32,
    through: u32,
    version: u32,
    due: Pence,
    edition: u32,
    shares: [u64; OPERATORS],
}

impl Model for Quote {
    ghost use Rattle.pay_rules.specs.QuoteParts.{QuoteParts, quote_code, IsQuote};

    ghost Value = { QuoteParts };

    ghost coded = { quote_code };

    ghost view = { λ q. record { account = q.account; week = q.week; through = q.through; version = q.version; due = q.due; edition = q.edition; shares = q.shares } };

    ghost inverse = { λ q. record { account = q.account; week = q.week; through = q.through; version = q.version; due = q.due; edition = q.edition; shares = q.shares } };

    ghost invariant = { λ q. IsQuote (record { account = q.account; week = q.week; through = q.through; version = q.version; due = q.due; edition = q.edition; shares = q.shares }) };
}

/// Whether a week may be quoted through a day: that is a service day that may be asked for, and the week is told by its
/// Monday.
fn is_through(week: u32, through: u32) -> bool
    ensures { IsTrue result ↔ IsWeekThrough week through }
{
    FIRST_DAY <= through && through <= LAST_DAY && week == monday(through)
}

/// Whether a quote's edition may begin on a day: a service day, or 0 for one that is not known.
fn is_edition_day(day: u32) -> bool
    ensures { IsTrue result ↔ IsEditionDay day }
{
    day == 0 || FIRST_DAY <= day && day <= LAST_DAY
}

/// Whether shares are all of what is due.
fn are_all_of(due: Pence, shares: &[u64; OPERATORS]) -> bool
    ensures { IsTrue result ↔ (sum shares.now ≡ due) }
{
    let mut left = due.pence();
    for share in shares {
        if *share > left {
            return false;
        }
        left -= *share;
    }
    left == 0
}

/// Whether a quote may have these numbers.
fn is_quote(
    account: u32,
    week: u32,
    through: u32,
    version: u32,
    due: Pence,
    edition: u32,
    shares: &[u64; OPERATORS],
) -> bool
    ensures { IsTrue result ↔ IsQuote (record { account = account; week = week; through = through; version = version; due = due; edition = edition; shares = shares.now }) }
{
    account >= 1
        && is_through(week, through)
        && version as usize <= MOST_TOUCHES
        && due.pence() <= MOST_MONEY
        && is_edition_day(edition)
        && are_all_of(due, shares)
}

impl Quote {
    /// A quote of these numbers, if it may have them: `account` is 1 or more, `through` is a day from 4 to 50,000 and
    /// `week` its Monday, `version` is at most 17,408 and `due` at most 4,000,000,000 pence, `edition` is a day from 4 to
    /// 50,000, or 0, and the shares sum to what is due.
    pub fn rebuilt(
        account: u32,
        week: u32,
        through: u32,
        version: u32,
        due: Pence,
        edition: u32,
        shares: [u64; OPERATORS],
    ) -> Option<Quote>
        ensures in_range { IsSome result ↔ IsQuote (record { account = account; week = week; through = through; version = version; due = due; edition = edition; shares = shares }) }
        ensures parts { IfSome result (λ quote. quote ≡ record { account = account; week = week; through = through; version = version; due = due; edition = edition; shares = shares }) }
    {
        if is_quote(account, week, through, version, due, edition, &shares) {
            Some(Quote {
                account,
                week,
                through,
                version,
                due,
                edition,
                shares,
            })
        } else {
            None
        }
    }

    /// The account: 1 or more.
    pub fn account(&self) -> u32
        ensures value { result ≡ self.now.account }
        ensures in_range { 1 ≤ result }
    {
        self.account
    }

    /// The Monday of the week, counted from 1970-01-01.
    pub fn week(&self) -> u32
        ensures value { result ≡ self.now.week }
        ensures its_monday { result ≡ monday self.now.through }
        ensures in_range { IsDay result }
    {
        self.week
    }

    /// The day of the week through which it is, counted from 1970-01-01.
    pub fn through(&self) -> u32
        ensures value { result ≡ self.now.through }
        ensures in_range { IsDay result }
    {
        self.through
    }

    /// How many taps and corrections the account had accepted.
    pub fn version(&self) -> u32
        ensures value { result ≡ self.now.version }
        ensures in_range { result ≤ MOST_TAPS + MOST_FIXES }
    {
        self.version
    }

    /// What is due.
    pub fn due(&self) -> Pence
        ensures value { result ≡ self.now.due }
        ensures in_range { result ≤ MOST_MONEY }
    {
        self.due
    }

    /// The first day of the fare edition by which the week is priced, that of its Monday, counted from 1970-01-01; 0 for a
    /// posting that was copied from version 1 of the ledger, which does not say.
    pub fn edition(&self) -> u32
        ensures value { result ≡ self.now.edition }
        ensures in_range { IsEditionDay result }
    {
        self.edition
    }

    /// What of it each operator gets, in pence: operator 1 stands first.
    pub fn shares(&self) -> &[u64; OPERATORS]
        ensures value { result.now ≡ self.now.shares }
        ensures all { sum result.now ≡ self.now.due }
        ensures operators { length result.now ≡ OPERATORS }
    {
        &self.shares
    }
}
