//! What was posted for an account and a week, as a table.
ghost use Rattle.std.specs.Prelude.{◌≡◌, ◌++◌, IfOk, OnOk};
ghost use Rattle.std.specs.List.{flat_map};
ghost use Rattle.std.specs.String.{string_bytes};
ghost use Rattle.pay_page.specs.Posted.{posted_of, posting_row, postings_part, postings_table, share_item, share_items};

use crate::sums::push_table_end;
use pay_dates::DatedDay;
use pay_explain::{NamedPlace, Pounds};
use pay_html::Escaped;
use pay_money::Pence;
use pay_money::limits::OPERATORS;
use pay_names::Names;
use pay_rules::{Posting, Postings};
use std::alloc::{AllocError, Global};
use std::fmt;

/// What was posted for an account and a week, by a ledger.
#[derive(Drop)]
pub enum Posted {
    /// No ledger is looked at.
    NoLedger,
    /// The ledger cannot be read now.
    Unknown,
    /// These postings, in order.
    Known(Postings),
}

/// What was posted, and what it is told with.
#[derive(Clone, Copy)]
pub struct PostedWeek<'a> {
    /// What was posted for the account and the week.
    pub posted: &'a Posted,
    /// The names of operators.
    pub operators: &'a Names,
    /// How many taps and corrections the account has accepted by its journals.
    pub version: usize,
}

/// An amount in pence as pounds, below 0 what was given back: `-1.50`.
#[derive(Clone, Copy)]
struct SignedPounds(i64);

/// How many taps and corrections an account had accepted when something was posted, and how many it has by its journals.
#[derive(Clone, Copy)]
struct Versions {
    posted: u32,
    now: usize,
}

/// The row of a posting, with what fell to operators as items of a list.
#[derive(Clone, Copy)]
struct PostingRow<'a> {
    posting: &'a Posting,
    now: usize,
    shares: &'a str,
}

/// The head of the table of postings.
#[derive(Clone, Copy)]
struct PostingsStart;

impl fmt::Display for SignedPounds {
    ghost use Rattle.std.specs.Prelude.{Some};
    ghost use Rattle.pay_page.specs.Posted.{signed_pounds};

    ghost output = { λ amount. Some (signed_pounds amount.0) };

    fn fmt<W: fmt::Write>(&self, f: &mut fmt::Formatter<W>) -> fmt::Result {
        let pounds = Pounds(Pence::new(self.0.unsigned_abs()));
        if self.0 < 0 {
            write!(f, "-{pounds}")
        } else {
            write!(f, "{pounds}")
        }
    }
}

impl fmt::Display for Versions {
    ghost use Rattle.std.specs.Prelude.{Some};
    ghost use Rattle.pay_page.specs.Posted.{versions_text};

    ghost output = { λ versions. Some (versions_text versions.posted versions.now) };

    fn fmt<W: fmt::Write>(&self, f: &mut fmt::Formatter<W>) -> fmt::Result {
        let (posted, now) = (self.posted, self.now);
        if posted as usize <= now {
            write!(f, "{posted} then, {now} now")
        } else {
            write!(
                f,
                "the ledger is ahead of the journal: {posted} then, {now} in the journal"
            )
        }
    }
}

impl<'a> fmt::Display for PostingRow<'a> {
    ghost use Rattle.std.specs.Prelude.{Some};
    ghost use Rattle.pay_page.specs.Posted.{row_with};

    ghost output = { λ row. Some (row_with row.now row.posting.now row.shares.now) };

    #[tactic(auto, unfolding(crate::specs::Posted::row_with))]
    fn fmt<W: fmt::Write>(&self, f: &mut fmt::Formatter<W>) -> fmt::Result {
        let amount = SignedPounds(self.posting.amount);
        let through = DatedDay::of(self.posting.quote.through());
        let due = Pounds(self.posting.quote.due());
        let versions = Versions {
            posted: self.posting.quote.version(),
            now: self.now,
        };
        let shares = self.shares;
        write!(
            f,
            "<tr><td class=\"amount\">{amount}</td><td>{through}</td><td class=\"amount\">{due}</td>\
<td>{versions}</td><td><ul>{shares}</ul></td></tr>\n"
        )
    }
}

impl fmt::Display for PostingsStart {
    ghost use Rattle.std.specs.Prelude.{Some};
    ghost use Rattle.pay_page.specs.Posted.{postings_start};

    ghost output = { λ _. Some postings_start };

    #[tactic(auto, unfolding(crate::specs::Posted::postings_start))]
    fn fmt<W: fmt::Write>(&self, f: &mut fmt::Formatter<W>) -> fmt::Result {
        f.write_str(
            "<h2>Posted</h2>\n<table>\n<caption>What was posted for the week, below 0 what was given back</caption>\n\
<thead>\n<tr><th scope=\"col\">Amount</th><th scope=\"col\">Through</th><th scope=\"col\">Due then</th>\
<th scope=\"col\">Taps and corrections accepted</th><th scope=\"col\">Operators</th></tr>\n</thead>\n<tbody>\n",
        )
    }
}

/// Adds the item of what fell to an operator of a posting: none, where that is nothing.
fn push_share(
    alloc: Global,
    text: &mut String,
    names: &Names,
    number: u16,
    amount: i64,
) -> Result<(), AllocError>
    ensures { OnOk result (string_bytes text.new ≡ string_bytes text.old ++ share_item names.now number amount) }
{
    if amount != 0 {
        let named = NamedPlace { names, number };
        let mut label = String::new(alloc);
        write!(label, "{named}")?;
        let pounds = SignedPounds(amount);
        let label = Escaped(label.as_str());
        write!(text, "<li>{pounds} to operator {label}</li>")?;
    }
    Ok(())
}

/// The items of what fell to each operator, operator 1 first.
fn share_items(
    alloc: Global,
    names: &Names,
    amounts: &[i64; OPERATORS],
) -> Result<String, AllocError>
    ensures { IfOk result (λ text. string_bytes text ≡ share_items names.now 1 amounts.now) }
{
    let mut text = String::new(alloc);
    for place in 0..OPERATORS {
        push_share(alloc, &mut text, names, place as u16 + 1, amounts[place])?;
    }
    Ok(text)
}

/// Adds the row of a posting, where the account has that version now.
fn push_posting(
    alloc: Global,
    text: &mut String,
    names: &Names,
    now: usize,
    posting: &Posting,
) -> Result<(), AllocError>
    ensures { OnOk result (string_bytes text.new ≡ string_bytes text.old ++ posting_row names.now now posting.now) }
{
    let shares = share_items(alloc, names, &posting.share_amounts)?;
    let row = PostingRow {
        posting,
        now,
        shares: shares.as_str(),
    };
    write!(text, "{row}")?;
    Ok(())
}

/// Adds the rows of postings.
fn push_postings(
    alloc: Global,
    text: &mut String,
    names: &Names,
    now: usize,
    postings: &[Posting],
) -> Result<(), AllocError>
    ensures { OnOk result (string_bytes text.new ≡ string_bytes text.old ++ flat_map (posting_row names.now now) postings.now) }
{
    for posting in postings {
        push_posting(alloc, text, names, now, posting)?;
    }
    Ok(())
}

/// Adds the table of postings.
#[tactic(auto, using(crate::proofs::Adding::then_third))]
fn push_table(
    alloc: Global,
    text: &mut String,
    names: &Names,
    now: usize,
    postings: &[Posting],
) -> Result<(), AllocError>
    ensures { OnOk result (string_bytes text.new ≡ string_bytes text.old ++ postings_table names.now now postings.now) }
{
    let start = PostingsStart;
    write!(text, "{start}")?;
    push_postings(alloc, text, names, now, postings)?;
    push_table_end(text)?;
    Ok(())
}

/// The same, or that there are none.
fn push_known(
    alloc: Global,
    text: &mut String,
    names: &Names,
    now: usize,
    postings: &[Posting],
) -> Result<(), AllocError>
    ensures { OnOk result (string_bytes text.new ≡ string_bytes text.old ++ postings_part names.now now postings.now) }
{
    if postings.is_empty() {
        text.push_str("<h2>Posted</h2>\n<p>Nothing was posted for the week.</p>\n")?;
    } else {
        push_table(alloc, text, names, now, postings)?;
    }
    Ok(())
}

/// Adds what was posted: nothing, where no ledger is looked at.
pub fn push_posted(
    alloc: Global,
    text: &mut String,
    week: &PostedWeek<'_>,
) -> Result<(), AllocError>
    ensures { OnOk result (string_bytes text.new ≡ string_bytes text.old ++ posted_of week.now) }
{
    match week.posted {
        Posted::NoLedger => Ok(()),
        Posted::Unknown => {
            text.push_str("<h2>Posted</h2>\n<p>What was posted is not known now.</p>\n")
        }
        Posted::Known(postings) => push_known(
            alloc,
            text,
            week.operators,
            week.version,
            postings.as_slice(),
        ),
    }
}
