//! What was posted for an account and a week.
ghost use Rattle.std.specs.Prelude.{◌≡◌, true, IfOk, OnOk};
ghost use Rattle.std.specs.String.{string_bytes};
ghost use Rattle.serde_json.specs.Written.{compact_text, members_text};
ghost use Rattle.pay_json.specs.Posted.{posted_end, posted_of, posting_of, postings_joined, postings_value, share_of, shares_joined, shares_value};
ghost use Rattle.pay_json.specs.Values.{joined};

use crate::arrays::{date_of, in_brackets, push_comma};
use crate::places::Place;
use crate::weeks::Dated;
use pay_dates::DatedDay;
use pay_money::limits::OPERATORS;
use pay_names::Names;
use pay_page::{Posted, PostedWeek};
use pay_rules::Posting;
use std::alloc::{AllocError, Global};
use std::fmt;

/// A whole number, which may be below 0.
#[derive(Clone, Copy)]
struct Signed(i64);

/// What of a posting fell to an operator.
#[derive(Clone, Copy)]
struct ShareObject<'a> {
    names: &'a Names,
    operator: u16,
    amount: i64,
}

/// A posting in plain numbers, with the date of its day, and its shares as they are written.
#[derive(Clone, Copy)]
struct PostingObject<'a> {
    amount: i64,
    through: u32,
    due: u64,
    date: &'a str,
    then: u32,
    now: usize,
    shares: &'a str,
}

/// The end of a posting: how many taps and corrections were accepted then and are now, and its shares as they are written.
#[derive(Clone, Copy)]
struct Accepted<'a> {
    then: u32,
    now: usize,
    shares: &'a str,
}

impl fmt::Display for Signed {
    ghost use Rattle.std.specs.Prelude.{Some};
    ghost use Rattle.serde_json.specs.Written.{compact_text};
    ghost use Rattle.pay_json.specs.Posted.{signed};

    ghost output = { λ it. Some (compact_text (signed it.0)) };

    #[tactic(auto, using(crate::proofs::Signs::signed_text))]
    fn fmt<W: fmt::Write>(&self, f: &mut fmt::Formatter<W>) -> fmt::Result {
        let number = self.0;
        write!(f, "{number}")
    }
}

impl<'a> fmt::Display for ShareObject<'a> {
    ghost use Rattle.std.specs.Prelude.{Some};
    ghost use Rattle.serde_json.specs.Data.{object};
    ghost use Rattle.serde_json.specs.Written.{compact_text};
    ghost use Rattle.pay_json.specs.Posted.{share_members};

    ghost output = { λ it. Some (compact_text (object (share_members it.names.now it.operator it.amount))) };

    #[tactic(auto, unfolding(crate::specs::Posted::share_members, json::specs::Print::escape_byte))]
    fn fmt<W: fmt::Write>(&self, f: &mut fmt::Formatter<W>) -> fmt::Result {
        let operator = Place {
            names: self.names,
            number: self.operator,
        };
        let amount = Signed(self.amount);
        write!(f, "{{\"operator\":{operator},\"amount_pence\":{amount}}}")
    }
}

impl<'a> fmt::Display for Accepted<'a> {
    ghost use Rattle.std.specs.Prelude.{Some};
    ghost use Rattle.pay_json.specs.Posted.{accepted_text};

    ghost output = { λ it. Some (accepted_text it.then it.now it.shares.now) };

    #[tactic(auto, unfolding(crate::specs::Posted::accepted_text))]
    fn fmt<W: fmt::Write>(&self, f: &mut fmt::Formatter<W>) -> fmt::Result {
        let (then, now, shares) = (self.then, self.now, self.shares);
        write!(
            f,
            ",\"accepted_then\":{then},\"accepted_now\":{now},\"shares\":{shares}}}"
        )
    }
}

impl<'a> fmt::Display for PostingObject<'a> {
    ghost use Rattle.std.specs.Prelude.{Some};
    ghost use Rattle.pay_json.specs.Posted.{accepted_text, posting_text};

    ghost output = { λ it. Some (posting_text it.amount (it.through, it.date.now) it.due (accepted_text it.then it.now it.shares.now)) };

    #[tactic(auto, unfolding(crate::specs::Posted::posting_text))]
    fn fmt<W: fmt::Write>(&self, f: &mut fmt::Formatter<W>) -> fmt::Result {
        let amount = Signed(self.amount);
        let through = Dated {
            day: self.through,
            date: self.date,
        };
        let accepted = Accepted {
            then: self.then,
            now: self.now,
            shares: self.shares,
        };
        let due = self.due;
        write!(
            f,
            "{{\"amount_pence\":{amount},\"through\":{through},\"due_pence\":{due}{accepted}"
        )
    }
}

/// Adds what of a posting fell to an operator, if that is something.
#[tactic(auto, using(crate::proofs::Adding::then), unfolding(crate::specs::Values::joined))]
fn push_share(
    text: &mut String,
    names: &Names,
    operator: u16,
    amount: i64,
) -> Result<(), AllocError>
    ensures { OnOk result (string_bytes text.new ≡ joined (string_bytes text.old) (share_of names.now (operator, amount))) }
{
    if amount != 0 {
        let object = ShareObject {
            names,
            operator,
            amount,
        };
        push_comma(text)?;
        write!(text, "{object}")?;
    }
    Ok(())
}

/// What of a posting fell to each operator, operator 1 first, with commas between them.
fn shares_joined(
    alloc: Global,
    names: &Names,
    amounts: &[i64; OPERATORS],
) -> Result<String, AllocError>
    ensures { IfOk result (λ text. string_bytes text ≡ shares_joined names.now amounts.now) }
{
    let mut text = String::new(alloc);
    for place in 0..OPERATORS {
        push_share(&mut text, names, place as u16 + 1, amounts[place])?;
    }
    Ok(text)
}

/// The same as an array.
#[tactic(auto, using(crate::proofs::Items::array_is))]
fn shares_array(
    alloc: Global,
    names: &Names,
    amounts: &[i64; OPERATORS],
) -> Result<String, AllocError>
    ensures { IfOk result (λ text. string_bytes text ≡ compact_text (shares_value names.now amounts.now)) }
{
    let objects = shares_joined(alloc, names, amounts)?;
    in_brackets(alloc, objects.as_str())
}

/// Adds a posting.
fn push_posting(
    alloc: Global,
    text: &mut String,
    names: &Names,
    now: usize,
    posting: &Posting,
) -> Result<(), AllocError>
    ensures { OnOk result (string_bytes text.new ≡ joined (string_bytes text.old) (posting_of names.now now posting.now)) }
{
    let date = date_of(alloc, DatedDay::of(posting.quote.through()))?;
    let shares = shares_array(alloc, names, &posting.share_amounts)?;
    let object = PostingObject {
        amount: posting.amount,
        through: posting.quote.through(),
        due: posting.quote.due().pence(),
        date: date.as_str(),
        then: posting.quote.version(),
        now,
        shares: shares.as_str(),
    };
    push_comma(text)?;
    write!(text, "{object}")?;
    Ok(())
}

/// Postings, with commas between them.
fn postings_joined(
    alloc: Global,
    names: &Names,
    now: usize,
    postings: &[Posting],
) -> Result<String, AllocError>
    ensures { IfOk result (λ text. string_bytes text ≡ postings_joined names.now now postings.now) }
{
    let mut text = String::new(alloc);
    for posting in postings {
        push_posting(alloc, &mut text, names, now, posting)?;
    }
    Ok(text)
}

/// The same as an array.
#[tactic(auto, using(crate::proofs::Items::array_is))]
fn postings_array(
    alloc: Global,
    names: &Names,
    now: usize,
    postings: &[Posting],
) -> Result<String, AllocError>
    ensures { IfOk result (λ text. string_bytes text ≡ compact_text (postings_value names.now now postings.now)) }
{
    let objects = postings_joined(alloc, names, now, postings)?;
    in_brackets(alloc, objects.as_str())
}

/// The end of an object with the field of what was posted.
#[tactic(auto, unfolding(json::specs::Print::escape_byte))]
fn end_with(alloc: Global, value: &str) -> Result<String, AllocError>
    ensures { IfOk result (λ text. string_bytes text ≡ posted_end value.now) }
{
    let mut text = String::new(alloc);
    write!(text, ",\"posted\":{value}}}")?;
    Ok(text)
}

/// The end of the document of a week, with what was posted where a ledger is looked at.
#[tactic(auto, unfolding(json::specs::Print::escape_byte))]
pub fn week_end(alloc: Global, week: &PostedWeek<'_>) -> Result<String, AllocError>
    ensures { IfOk result (λ text. string_bytes text ≡ members_text true (posted_of week.now)) }
{
    match week.posted {
        Posted::NoLedger => String::from_str(alloc, "}"),
        Posted::Unknown => end_with(alloc, "null"),
        Posted::Known(postings) => {
            let array = postings_array(alloc, week.operators, week.version, postings.as_slice())?;
            end_with(alloc, array.as_str())
        }
    }
}
