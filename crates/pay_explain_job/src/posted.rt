//! What was posted for an account and a week, as lines.
ghost use Rattle.std.specs.Prelude.{◌≡◌, ◌++◌, IfOk, OnOk};
ghost use Rattle.std.specs.List.{flat_map};
ghost use Rattle.std.specs.String.{string_bytes};
ghost use Rattle.pay_day.specs.Words.{IsDay};
ghost use Rattle.pay_explain_job.specs.PostedLines.{refund_indent, share_line, share_lines, posting_lines, postings_text, posted_text, nothing_text};

use pay_dates::DatedDay;
use pay_explain::{Head, NamedPlace, Pounds};
use pay_money::Pence;
use pay_money::limits::OPERATORS;
use pay_names::Names;
use pay_rules::Posting;
use std::alloc::{AllocError, Global};
use std::fmt;

/// An amount in pence at the head of a line, below 0 what was given back: `   8.90  `, and `  -1.50  `, with all points in one column.
#[derive(Clone, Copy)]
struct SignedHead(i64);

impl fmt::Display for SignedHead {
    ghost use Rattle.std.specs.Prelude.{Some};
    ghost use Rattle.pay_explain_job.specs.PostedLines.{signed_head};

    ghost output = { λ amount. Some (signed_head amount.0) };

    fn fmt<W: fmt::Write>(&self, f: &mut fmt::Formatter<W>) -> fmt::Result {
        let amount = Pence::new(self.0.unsigned_abs());
        if self.0 < 0 {
            let indent = refund_indent(amount);
            let pounds = Pounds(amount);
            write!(f, "{indent}{pounds}  ")
        } else {
            let head = Head(amount);
            write!(f, "{head}")
        }
    }
}

/// What stands before an amount that was given back: its point is in the column of the others, up to 999.99.
fn refund_indent(amount: Pence) -> &'static str
    ensures { result.now ≡ refund_indent amount }
{
    match amount.pence() {
        0..1_000 => "  -",
        1_000..10_000 => " -",
        _ => "-",
    }
}

/// An operator by its number, from 1, and its name, if it has one.
#[derive(Clone, Copy)]
struct Operator<'a> {
    names: &'a Names,
    number: u16,
}

impl<'a> fmt::Display for Operator<'a> {
    ghost use Rattle.std.specs.Prelude.{Some};
    ghost use Rattle.pay_explain_job.specs.PostedLines.{operator_text};

    ghost output = { λ operator. Some (operator_text operator.names.now operator.number) };

    fn fmt<W: fmt::Write>(&self, f: &mut fmt::Formatter<W>) -> fmt::Result {
        let named = NamedPlace {
            names: self.names,
            number: self.number,
        };
        write!(f, "operator {named}")
    }
}

/// How many taps and corrections an account had accepted when something was posted, and how many it has by its journals.
#[derive(Clone, Copy)]
struct Versions {
    posted: u32,
    now: usize,
}

impl fmt::Display for Versions {
    ghost use Rattle.std.specs.Prelude.{Some};
    ghost use Rattle.pay_explain_job.specs.PostedLines.{versions_text};

    ghost output = { λ versions. Some (versions_text versions.posted versions.now) };

    fn fmt<W: fmt::Write>(&self, f: &mut fmt::Formatter<W>) -> fmt::Result {
        let (posted, now) = (self.posted, self.now);
        if posted as usize <= now {
            write!(f, "taps and corrections accepted: {posted} then, {now} now")
        } else {
            write!(
                f,
                "the ledger is ahead of the journal: taps and corrections accepted: {posted} then, {now} in the journal"
            )
        }
    }
}

/// A posting as a line: `  -5.20  through day 19730, 2024-01-08: 3.40 due; taps and corrections accepted: 3 then, 5 now`.
#[derive(Clone, Copy)]
struct PostingLine<'a> {
    posting: &'a Posting,
    now: usize,
}

impl<'a> fmt::Display for PostingLine<'a> {
    ghost use Rattle.std.specs.Prelude.{Some};
    ghost use Rattle.pay_explain_job.specs.PostedLines.{posting_line};

    ghost output = { λ line. Some (posting_line line.now line.posting.now) };

    fn fmt<W: fmt::Write>(&self, f: &mut fmt::Formatter<W>) -> fmt::Result {
        let head = SignedHead(self.posting.amount);
        let through = DatedDay::of(self.posting.quote.through());
        let due = Pounds(self.posting.quote.due());
        let versions = Versions {
            posted: self.posting.quote.version(),
            now: self.now,
        };
        write!(f, "{head}through {through}: {due} due; {versions}\n")
    }
}

/// Adds the line of what fell to an operator of a posting: none, where that is nothing.
fn push_share(text: &mut String, names: &Names, number: u16, amount: i64) -> Result<(), AllocError>
    ensures { OnOk result (string_bytes text.new ≡ string_bytes text.old ++ share_line names.now number amount) }
{
    if amount != 0 {
        let head = SignedHead(amount);
        let operator = Operator { names, number };
        write!(text, "      {head}of it to {operator}\n")?;
    }
    Ok(())
}

/// Adds the lines of what fell to each operator, operator 1 first.
fn push_shares(
    text: &mut String,
    names: &Names,
    amounts: &[i64; OPERATORS],
) -> Result<(), AllocError>
    ensures { OnOk result (string_bytes text.new ≡ string_bytes text.old ++ share_lines names.now 1 amounts.now) }
{
    for place in 0..OPERATORS {
        push_share(text, names, place as u16 + 1, amounts[place])?;
    }
    Ok(())
}

/// Adds the lines of a posting, where the account has that version now.
fn push_posting(
    text: &mut String,
    names: &Names,
    posting: &Posting,
    now: usize,
) -> Result<(), AllocError>
    ensures { OnOk result (string_bytes text.new ≡ string_bytes text.old ++ posting_lines names.now now posting.now) }
{
    let line = PostingLine { posting, now };
    write!(text, "{line}")?;
    push_shares(text, names, &posting.share_amounts)?;
    Ok(())
}

/// Adds the lines of postings.
fn push_postings(
    text: &mut String,
    names: &Names,
    postings: &[Posting],
    now: usize,
) -> Result<(), AllocError>
    ensures { OnOk result (string_bytes text.new ≡ string_bytes text.old ++ flat_map (posting_lines names.now now) postings.now) }
{
    for posting in postings {
        push_posting(text, names, posting, now)?;
    }
    Ok(())
}

/// The text of postings of the week from a day on.
fn postings_text(
    alloc: Global,
    names: &Names,
    week: u32,
    postings: &[Posting],
    now: usize,
) -> Result<String, AllocError>
    requires { IsDay week }
    ensures { IfOk result (λ text. string_bytes text ≡ postings_text names.now week now postings.now) }
{
    let week = DatedDay::of(week);
    let mut text = String::new(alloc);
    write!(text, "         posted for the week from {week}:\n")?;
    push_postings(&mut text, names, postings, now)?;
    Ok(text)
}

/// The text of a week from a day on for which nothing was posted.
fn nothing_text(alloc: Global, week: u32) -> Result<String, AllocError>
    requires { IsDay week }
    ensures { IfOk result (λ text. string_bytes text ≡ nothing_text week) }
{
    let week = DatedDay::of(week);
    let mut text = String::new(alloc);
    write!(
        text,
        "         nothing was posted for the week from {week}\n"
    )?;
    Ok(text)
}

/// The text of what was posted for the week from a Monday on, where the account has that version now, and operators have these names. An
/// `Err` is out of memory.
pub fn posted_text(
    alloc: Global,
    operators: &Names,
    week: u32,
    postings: &[Posting],
    now: usize,
) -> Result<String, AllocError>
    requires { IsDay week }
    ensures { IfOk result (λ text. string_bytes text ≡ posted_text operators.now week now postings.now) }
{
    if postings.is_empty() {
        nothing_text(alloc, week)
    } else {
        postings_text(alloc, operators, week, postings, now)
    }
}
