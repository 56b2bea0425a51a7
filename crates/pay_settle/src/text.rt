//! A settlement as a report.
ghost use Rattle.std.specs.Prelude.{◌≡◌, ◌<◌, ◌+◌, ◌++◌, flat_map, get_or, map, pos, codes, decimal, IfOk, OnOk};
ghost use Rattle.std.specs.String.{string_bytes};
ghost use Rattle.csv.specs.Writing.{default_writer, row_text};
ghost use Rattle.pay_dates.specs.Words.{date_text_of};
ghost use Rattle.pay_day.specs.Words.{IsDay};
ghost use Rattle.pay_money.specs.declared.limits.TheConstants.{OPERATORS};
ghost use Rattle.pay_settle.specs.Text.{account_row, amount_text, columns, fields_of, kind_text, operator_row, operator_rows, report_text, row_bytes, total_fields, week_row, week_text};

use crate::settlement::Settlement;
use csv::Writer;
use pay_dates::{CalendarDay, DatedDay};
use pay_day::limits::{FIRST_DAY, LAST_DAY};
use pay_money::limits::OPERATORS;
use std::alloc::{AllocError, Global};
use std::collections::BTreeMap;

/// What a row tells.
#[derive(Clone, Copy, Debug, PartialEq, Eq)]
enum RowKind {
    /// The sum of all.
    Total,
    /// What an operator is owed.
    Operator,
    /// The sum of a week.
    Week,
    /// The sum of an account and a week.
    Account,
}

/// What a row tells, in a word.
fn kind_text(kind: RowKind) -> &'static str
    ensures { result.now ≡ kind_text kind }
{
    match kind {
        RowKind::Total => "TOTAL",
        RowKind::Operator => "OPERATOR",
        RowKind::Week => "WEEK",
        RowKind::Account => "ACCOUNT",
    }
}

/// An amount in pounds and pence: `3.40`, and `-1.50` what is below 0.
fn amount_text(alloc: Global, amount: i128) -> Result<String, AllocError>
    ensures { IfOk result (λ text. string_bytes text ≡ amount_text amount) }
{
    let pence = amount.unsigned_abs();
    let (pounds, tens, ones) = (pence / 100, pence / 10 % 10, pence % 10);
    let mut text = String::new(alloc);
    if amount < 0 {
        write!(text, "-{pounds}.{tens}{ones}")?;
    } else {
        write!(text, "{pounds}.{tens}{ones}")?;
    }
    Ok(text)
}

/// A number.
fn number_text(alloc: Global, number: u32) -> Result<String, AllocError>
    ensures { IfOk result (λ text. string_bytes text ≡ decimal number) }
{
    let mut text = String::new(alloc);
    write!(text, "{number}")?;
    Ok(text)
}

/// The date of a service day.
fn date_text(alloc: Global, day: u32) -> Result<String, AllocError>
    requires { IsDay day }
    ensures { IfOk result (λ text. string_bytes text ≡ date_text_of day) }
{
    let date = CalendarDay(DatedDay::of(day));
    let mut text = String::new(alloc);
    write!(text, "{date}")?;
    Ok(text)
}

/// A week, by the date of its Monday.
fn week_text(alloc: Global, week: u32) -> Result<String, AllocError>
    ensures { IfOk result (λ text. string_bytes text ≡ week_text week) }
{
    if FIRST_DAY <= week && week <= LAST_DAY {
        date_text(alloc, week)
    } else {
        number_text(alloc, week)
    }
}

/// Fields as a row. An `Err` is out of memory: a vector takes all bytes, as far as there is any.
fn fields_text(alloc: Global, fields: &[&[u8]]) -> Result<Vec<u8>, AllocError>
    ensures { IfOk result (λ text. text.items ≡ row_text default_writer (map (λ f. f.now) fields.now)) }
{
    let mut row = Writer::from_writer(Vec::new(alloc));
    if row.write_fields(fields).is_err() {
        return Err(AllocError);
    }
    match row.into_inner() {
        Ok(text) => Ok(text),
        Err(_) => Err(AllocError),
    }
}

/// The row that names the fields.
fn first_row(alloc: Global) -> Result<Vec<u8>, AllocError>
    ensures { IfOk result (λ text. text.items ≡ row_bytes columns) }
{
    fields_text(alloc, &[b"what", b"number", b"week", b"amount"])
}

/// A row.
fn row_bytes(
    alloc: Global,
    kind: RowKind,
    number: &String,
    week: &String,
    amount: i128,
) -> Result<Vec<u8>, AllocError>
    ensures { IfOk result (λ text. text.items ≡ row_bytes (fields_of kind (string_bytes number.now) (string_bytes week.now) amount)) }
{
    let number = number.clone()?;
    let week = week.clone()?;
    let amount = amount_text(alloc, amount)?;
    fields_text(
        alloc,
        &[
            kind_text(kind).as_bytes(),
            number.as_bytes(),
            week.as_bytes(),
            amount.as_bytes(),
        ],
    )
}

/// Adds a row to a text.
fn push_row(
    text: &mut Vec<u8>,
    kind: RowKind,
    number: &String,
    week: &String,
    amount: i128,
) -> Result<(), AllocError>
    ensures { OnOk result (text.new.items ≡ text.old.items ++ row_bytes (fields_of kind (string_bytes number.now) (string_bytes week.now) amount)) }
{
    let bytes = row_bytes(*text.allocator(), kind, number, week, amount)?;
    text.extend_from_slice(&bytes)
}

/// Adds the sum of all.
fn push_total(text: &mut Vec<u8>, sum: i128) -> Result<(), AllocError>
    ensures { OnOk result (text.new.items ≡ text.old.items ++ row_bytes (total_fields sum)) }
{
    let nothing = String::new(*text.allocator());
    push_row(text, RowKind::Total, &nothing, &nothing, sum)
}

/// Adds what an operator is owed.
fn push_operator(text: &mut Vec<u8>, number: u32, sum: i128) -> Result<(), AllocError>
    ensures { OnOk result (text.new.items ≡ text.old.items ++ operator_row number sum) }
{
    let number = number_text(*text.allocator(), number)?;
    let nothing = String::new(*text.allocator());
    push_row(text, RowKind::Operator, &number, &nothing, sum)
}

/// Adds what the operator at a place is owed.
fn push_share(text: &mut Vec<u8>, sums: &[i128; OPERATORS], place: usize) -> Result<(), AllocError>
    requires { place < OPERATORS }
    ensures { OnOk result (text.new.items ≡ text.old.items ++ operator_row (place + 1) (get_or sums.now place (pos 0))) }
{
    push_operator(text, place as u32 + 1, sums[place])
}

/// Adds what each operator is owed.
fn push_operators(text: &mut Vec<u8>, sums: &[i128; OPERATORS]) -> Result<(), AllocError>
    ensures { OnOk result (text.new.items ≡ text.old.items ++ operator_rows 1 sums.now) }
{
    for place in 0..OPERATORS {
        push_share(text, sums, place)?;
    }
    Ok(())
}

/// Adds the sum of a week.
fn push_week(text: &mut Vec<u8>, week: &u32, sum: &i128) -> Result<(), AllocError>
    ensures { OnOk result (text.new.items ≡ text.old.items ++ week_row (week.now, sum.now)) }
{
    let week = week_text(*text.allocator(), *week)?;
    let nothing = String::new(*text.allocator());
    push_row(text, RowKind::Week, &nothing, &week, *sum)
}

/// Adds those of all weeks.
fn push_weeks(text: &mut Vec<u8>, weeks: &BTreeMap<u32, i128>) -> Result<(), AllocError>
    ensures { OnOk result (text.new.items ≡ text.old.items ++ flat_map week_row weeks.now.entries) }
{
    for (week, sum) in weeks {
        push_week(text, week, sum)?;
    }
    Ok(())
}

/// Adds the sum of an account and a week.
fn push_account(text: &mut Vec<u8>, key: &(u32, u32), sum: &i128) -> Result<(), AllocError>
    ensures { OnOk result (text.new.items ≡ text.old.items ++ account_row (key.now, sum.now)) }
{
    let (account, week) = *key;
    let number = number_text(*text.allocator(), account)?;
    let week = week_text(*text.allocator(), week)?;
    push_row(text, RowKind::Account, &number, &week, *sum)
}

/// Adds those of all accounts and weeks.
fn push_accounts(
    text: &mut Vec<u8>,
    accounts: &BTreeMap<(u32, u32), i128>,
) -> Result<(), AllocError>
    ensures { OnOk result (text.new.items ≡ text.old.items ++ flat_map account_row accounts.now.entries) }
{
    for (key, sum) in accounts {
        push_account(text, key, sum)?;
    }
    Ok(())
}

/// The report: the sum of all, and those of operators, of weeks, and of accounts and weeks, in ascending order of these.
#[tactic(auto, using(crate::proofs::Rows::five))]
pub fn report(alloc: Global, sums: &Settlement) -> Result<Vec<u8>, AllocError>
    ensures { IfOk result (λ text. text.items ≡ report_text sums.now) }
{
    let mut text = first_row(alloc)?;
    push_total(&mut text, sums.total)?;
    push_operators(&mut text, &sums.operators)?;
    push_weeks(&mut text, &sums.weeks)?;
    push_accounts(&mut text, &sums.accounts)?;
    Ok(text)
}
