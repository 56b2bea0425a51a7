//! The document of a week.
ghost use Rattle.std.specs.Prelude.{◌≡◌, length, map, IfOk, OnOk};
ghost use Rattle.std.specs.String.{string_bytes};
ghost use Rattle.serde_json.specs.Written.{compact_text};
ghost use Rattle.pay_day.specs.Words.{IsDay};
ghost use Rattle.pay_dates.specs.declared.dated.DatedDay.{DatedDay};
ghost use Rattle.pay_rules.specs.Prices.{days_through};
ghost use Rattle.pay_json.specs.Posted.{posted_of};
ghost use Rattle.pay_json.specs.Values.{joined};
ghost use Rattle.pay_json.specs.Weeks.{credit_of, credits_joined, credits_value, days_joined, days_value, priced_day, week_value};

use crate::arrays::{date_of, in_brackets, push_comma};
use crate::posted::week_end;
use crate::strings::Quoted;
use crate::sums::Sums;
use pay_dates::DatedDay;
use pay_day::monday;
use pay_explain::{PricedDay, week_facts};
use pay_fix::FixSet;
use pay_money::Pence;
use pay_page::PostedWeek;
use pay_rules::{Fix, What};
use pay_tables::Editions;
use pay_taps::TapSet;
use pay_why::{CapReason, DueReason, counted_credits, due_reason};
use std::alloc::{AllocError, Global};
use std::fmt;

/// A day with its date.
#[derive(Clone, Copy)]
pub(crate) struct Dated<'a> {
    /// The day, counted from 1970-01-01.
    pub day: u32,
    /// Its date.
    pub date: &'a str,
}

/// A day of the week, with what it costs without its maximum fares.
#[derive(Clone, Copy)]
struct PricedObject<'a> {
    dated: Dated<'a>,
    price: Pence,
}

/// A Credit that counts.
#[derive(Clone, Copy)]
struct CreditObject<'a> {
    staff: u16,
    seq: u32,
    dated: Dated<'a>,
    amount: Pence,
}

/// The document of a week, with its arrays as they are written.
#[derive(Clone, Copy)]
struct WeekDocument<'a> {
    account: u32,
    currency: &'a str,
    from: u32,
    from_date: &'a str,
    through: u32,
    through_date: &'a str,
    days: &'a str,
    reason: CapReason,
    credits: &'a str,
    due: DueReason,
    end: &'a str,
}

/// The last part of it, from its sums on.
#[derive(Clone, Copy)]
struct WeekParts<'a> {
    reason: CapReason,
    credits: &'a str,
    due: DueReason,
    end: &'a str,
}

impl<'a> fmt::Display for Dated<'a> {
    ghost use Rattle.std.specs.Prelude.{Some};
    ghost use Rattle.serde_json.specs.Written.{compact_text};
    ghost use Rattle.pay_json.specs.Weeks.{dated_value};

    ghost output = { λ it. Some (compact_text (dated_value it.day it.date.now)) };

    #[tactic(auto, unfolding(crate::specs::Weeks::dated_value, json::specs::Print::escape_byte))]
    fn fmt<W: fmt::Write>(&self, f: &mut fmt::Formatter<W>) -> fmt::Result {
        let day = self.day;
        let date = Quoted(self.date);
        write!(f, "{{\"day\":{day},\"date\":{date}}}")
    }
}

impl<'a> fmt::Display for PricedObject<'a> {
    ghost use Rattle.std.specs.Prelude.{Some};
    ghost use Rattle.serde_json.specs.Data.{object};
    ghost use Rattle.serde_json.specs.Written.{compact_text};
    ghost use Rattle.pay_json.specs.Weeks.{priced_members};

    ghost output = { λ it. Some (compact_text (object (priced_members it.dated.day it.dated.date.now it.price))) };

    #[tactic(auto, unfolding(crate::specs::Weeks::priced_members, json::specs::Print::escape_byte))]
    fn fmt<W: fmt::Write>(&self, f: &mut fmt::Formatter<W>) -> fmt::Result {
        let day = self.dated.day;
        let date = Quoted(self.dated.date);
        let price = self.price.pence();
        write!(
            f,
            "{{\"day\":{day},\"date\":{date},\"price_pence\":{price}}}"
        )
    }
}

impl<'a> fmt::Display for CreditObject<'a> {
    ghost use Rattle.std.specs.Prelude.{Some};
    ghost use Rattle.serde_json.specs.Data.{object};
    ghost use Rattle.serde_json.specs.Written.{compact_text};
    ghost use Rattle.pay_json.specs.Weeks.{credit_members};

    ghost output = { λ it. Some (compact_text (object (credit_members it.staff it.seq it.dated.day it.dated.date.now it.amount))) };

    #[tactic(auto, unfolding(crate::specs::Weeks::credit_members, json::specs::Print::escape_byte))]
    fn fmt<W: fmt::Write>(&self, f: &mut fmt::Formatter<W>) -> fmt::Result {
        let (staff, seq) = (self.staff, self.seq);
        let day = self.dated.day;
        let date = Quoted(self.dated.date);
        let amount = self.amount.pence();
        write!(
            f,
            "{{\"staff\":{staff},\"seq\":{seq},\"day\":{day},\"date\":{date},\"amount_pence\":{amount}}}"
        )
    }
}

impl<'a> fmt::Display for WeekParts<'a> {
    ghost use Rattle.std.specs.Prelude.{Some};
    ghost use Rattle.pay_json.specs.Weeks.{week_parts};

    ghost output = { λ it. Some (week_parts it.reason it.credits.now it.due it.end.now) };

    #[tactic(auto, unfolding(crate::specs::Weeks::week_parts))]
    fn fmt<W: fmt::Write>(&self, f: &mut fmt::Formatter<W>) -> fmt::Result {
        let sums = Sums(self.reason);
        let credits = self.credits;
        let credited = self.due.credits.pence();
        let due = self.due.due.pence();
        let end = self.end;
        write!(
            f,
            ",\"sums\":{sums},\"credits\":{credits},\"credits_pence\":{credited},\"due_pence\":{due}{end}"
        )
    }
}

impl<'a> fmt::Display for WeekDocument<'a> {
    ghost use Rattle.std.specs.Prelude.{Some};
    ghost use Rattle.pay_json.specs.Weeks.{document_text};

    ghost output = { λ it. Some (document_text it) };

    #[tactic(auto, unfolding(crate::specs::Weeks::week_document))]
    fn fmt<W: fmt::Write>(&self, f: &mut fmt::Formatter<W>) -> fmt::Result {
        let account = self.account;
        let currency = Quoted(self.currency);
        let from = Dated {
            day: self.from,
            date: self.from_date,
        };
        let through = Dated {
            day: self.through,
            date: self.through_date,
        };
        let days = self.days;
        let parts = WeekParts {
            reason: self.reason,
            credits: self.credits,
            due: self.due,
            end: self.end,
        };
        write!(
            f,
            "{{\"account\":{account},\"currency\":{currency},\"from\":{from},\"through\":{through},\"days\":{days}{parts}"
        )
    }
}

/// The days of a day's week from Monday through that day, with their dates.
fn dated_days(alloc: Global, through: u32) -> Result<Vec<DatedDay>, AllocError>
    requires { IsDay through }
    ensures { IfOk result (λ list. map (λ (it : DatedDay). it.day) list.items ≡ days_through through) }
{
    let from = monday(through);
    let mut list = Vec::new(alloc);
    for place in 0..through + 1 - from {
        list.push(DatedDay::of(from + place))?;
    }
    Ok(list)
}

/// Adds a day with its price.
#[tactic(auto, using(crate::proofs::Adding::then), unfolding(crate::specs::Values::joined))]
fn push_day(
    alloc: Global,
    text: &mut String,
    day: DatedDay,
    priced: &PricedDay,
) -> Result<(), AllocError>
    ensures { OnOk result (string_bytes text.new ≡ joined (string_bytes text.old) (priced_day (day.day, priced.now))) }
{
    let number = day.day;
    let date = date_of(alloc, day)?;
    let object = PricedObject {
        dated: Dated {
            day: number,
            date: date.as_str(),
        },
        price: priced.price,
    };
    push_comma(text)?;
    write!(text, "{object}")?;
    Ok(())
}

/// Days with their prices, with commas between them.
fn days_joined(alloc: Global, days: &[DatedDay], priced: &[PricedDay]) -> Result<String, AllocError>
    requires { length days.now ≡ length priced.now }
    ensures { IfOk result (λ text. string_bytes text ≡ days_joined (map (λ (it : DatedDay). it.day) days.now) priced.now) }
{
    let mut text = String::new(alloc);
    for place in 0..days.len() {
        push_day(alloc, &mut text, days[place], &priced[place])?;
    }
    Ok(text)
}

/// The same as an array.
#[tactic(auto, using(crate::proofs::Items::array_is))]
fn days_array(alloc: Global, days: &[DatedDay], priced: &[PricedDay]) -> Result<String, AllocError>
    requires { length days.now ≡ length priced.now }
    ensures { IfOk result (λ text. string_bytes text ≡ compact_text (days_value (map (λ (it : DatedDay). it.day) days.now) priced.now)) }
{
    let objects = days_joined(alloc, days, priced)?;
    in_brackets(alloc, objects.as_str())
}

/// Adds a Credit, or nothing of any other correction.
#[tactic(auto, using(crate::proofs::Adding::then), unfolding(crate::specs::Values::joined))]
fn push_credit(alloc: Global, text: &mut String, fix: &Fix) -> Result<(), AllocError>
    ensures { OnOk result (string_bytes text.new ≡ joined (string_bytes text.old) (credit_of fix.now)) }
{
    if let What::Credit(credit) = fix.what {
        let day = credit.day();
        let date = date_of(alloc, DatedDay::of(day))?;
        let object = CreditObject {
            staff: fix.staff,
            seq: fix.seq,
            dated: Dated {
                day,
                date: date.as_str(),
            },
            amount: credit.pence(),
        };
        push_comma(text)?;
        write!(text, "{object}")?;
    }
    Ok(())
}

/// The Credits among corrections, with commas between them.
fn credits_joined(alloc: Global, credits: &[Fix]) -> Result<String, AllocError>
    ensures { IfOk result (λ text. string_bytes text ≡ credits_joined credits.now) }
{
    let mut text = String::new(alloc);
    for credit in credits {
        push_credit(alloc, &mut text, credit)?;
    }
    Ok(text)
}

/// The same as an array.
#[tactic(auto, using(crate::proofs::Items::array_is))]
fn credits_array(alloc: Global, credits: &[Fix]) -> Result<String, AllocError>
    ensures { IfOk result (λ text. string_bytes text ≡ compact_text (credits_value credits.now)) }
{
    let objects = credits_joined(alloc, credits)?;
    in_brackets(alloc, objects.as_str())
}

/// Why an account's week through a service day, counted from 1970-01-01, costs what it costs, and what is due of it, by the
/// accepted taps and corrections of the account: what `explained_week` of `pay_explain` tells, and what was posted for it, as an object of JSON, with
/// amounts in whole hundredth parts of this currency. `OPENAPI` has its schema, `Week`. An `Err` is out of memory.
pub fn week_json(
    alloc: Global,
    posted: &PostedWeek<'_>,
    currency: &str,
    editions: &Editions,
    taps: &TapSet,
    fixes: &FixSet,
    account: u32,
    through: u32,
) -> Result<String, AllocError>
    requires { IsDay through }
    ensures { IfOk result (λ text. string_bytes text ≡ compact_text (week_value (posted_of posted.now) currency.now editions.now (record { taps = taps.now; fixes = fixes.now }) account through)) }
{
    let list = dated_days(alloc, through)?;
    let facts = week_facts(alloc, editions, taps, fixes, through)?;
    let reason = facts.reason;
    let counted = counted_credits(alloc, fixes, through)?;
    let monday = monday(through);
    let first = date_of(alloc, DatedDay::of(monday))?;
    let last = date_of(alloc, DatedDay::of(through))?;
    let days = days_array(alloc, &list, &facts.days)?;
    let credits = credits_array(alloc, &counted)?;
    let due = due_reason(reason.price, fixes, through);
    let end = week_end(alloc, posted)?;
    let first = first.as_str();
    let last = last.as_str();
    let days = days.as_str();
    let credits = credits.as_str();
    let document = WeekDocument {
        account,
        currency,
        from: monday,
        from_date: first,
        through,
        through_date: last,
        days,
        reason,
        credits,
        due,
        end: end.as_str(),
    };
    let mut text = String::new(alloc);
    write!(text, "{document}")?;
    Ok(text)
}
