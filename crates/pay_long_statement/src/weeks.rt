//! The rows of a week, as a text.
ghost use Rattle.std.specs.Prelude.{◌≡◌, ◌++◌, map, List, Option, IfOk, OnOk};
ghost use Rattle.std.specs.List.{flat_map};
ghost use Rattle.pay_day.specs.Words.{IsDay};
ghost use Rattle.pay_tables.specs.Words.{on};
ghost use Rattle.pay_rules.specs.Accepted.{touches};
ghost use Rattle.pay_long_statement.specs.Rows.{cap_rows, credit_rows, listed_row, posted_row, sum_row, unused_rows};
ghost use Rattle.pay_long_statement.specs.Text.{row_bytes, rows_bytes, statement_text};
ghost use Rattle.pay_long_statement.specs.Weeks.{day_rows, days_rows, due_rows, last_day, posted_rows, sum_rows};
ghost use Rattle.pay_why.specs.Words.{due_reason};

use crate::journeys::listed_row;
use crate::row::{Amount, Row, RowKind};
use crate::text::{first_row, push_row};
use pay_day::limits::{DAYS_PER_WEEK, LAST_DAY};
use pay_day::monday;
use pay_explain::{day_facts, week_facts};
use pay_fix::FixSet;
use pay_money::Pence;
use pay_names::Names;
use pay_rules::{Fix, Journey, Posting, What};
use pay_tables::Editions;
use pay_taps::TapSet;
use pay_why::{CapReason, CappedBand, DueReason, ListedJourney, counted_credits, due_reason};
use std::alloc::{AllocError, Global};

/// The last service day of a day's week: its Sunday, if that is one.
fn last_day(day: u32) -> u32
    requires { IsDay day }
    ensures value { result ≡ last_day day }
    ensures is_day { IsDay result }
{
    let sunday = monday(day) + (DAYS_PER_WEEK - 1);
    if sunday <= LAST_DAY { sunday } else { LAST_DAY }
}

/// Adds a row that is of no journey.
fn push_sum(
    text: &mut Vec<u8>,
    names: &Names,
    kind: RowKind,
    day: u32,
    amount: Amount,
) -> Result<(), AllocError>
    requires { IsDay day }
    ensures { OnOk result (text.new.items ≡ text.old.items ++ row_bytes names.now (sum_row kind day amount)) }
{
    let row = Row {
        day,
        kind,
        from: None,
        to: None,
        start: None,
        end: None,
        amount,
    };
    push_row(text, names, &row)
}

/// Adds the row of what a cap takes off, if one does.
fn push_cap(
    text: &mut Vec<u8>,
    names: &Names,
    kind: RowKind,
    day: u32,
    band: &Option<CappedBand>,
) -> Result<(), AllocError>
    requires { IsDay day }
    ensures { OnOk result (text.new.items ≡ text.old.items ++ rows_bytes names.now (cap_rows kind day band.now)) }
{
    match band {
        Some(band) => {
            let off = band.inside.pence().saturating_sub(band.cap.pence());
            push_sum(text, names, kind, day, Amount::Off(Pence::new(off)))
        }
        None => Ok(()),
    }
}

/// Adds the rows of journeys that a day lists, where these are all journeys by rail of the account.
fn push_journeys(
    text: &mut Vec<u8>,
    names: &Names,
    journeys: &[Journey],
    list: &[ListedJourney],
) -> Result<(), AllocError>
    ensures { OnOk result (text.new.items ≡ text.old.items ++ rows_bytes names.now (map (listed_row journeys.now) list.now)) }
{
    for listed in list {
        push_row(text, names, &listed_row(journeys, listed))?;
    }
    Ok(())
}

/// Adds the rows of a service day.
fn push_day(
    text: &mut Vec<u8>,
    names: &Names,
    editions: &Editions,
    taps: &TapSet,
    fixes: &FixSet,
    day: u32,
) -> Result<(), AllocError>
    requires { IsDay day }
    ensures { OnOk result (text.new.items ≡ text.old.items ++ rows_bytes names.now (day_rows editions.now (touches (record { taps = taps.now; fixes = fixes.now })) day)) }
{
    let facts = day_facts(*text.allocator(), editions, taps, fixes, day)?;
    push_journeys(text, names, &facts.journeys, &facts.list)?;
    push_cap(text, names, RowKind::Cap, day, &facts.reason.band)
}

/// Adds the rows of the days from Monday through a day.
fn push_days(
    text: &mut Vec<u8>,
    names: &Names,
    editions: &Editions,
    taps: &TapSet,
    fixes: &FixSet,
    through: u32,
) -> Result<(), AllocError>
    requires { IsDay through }
    ensures { OnOk result (text.new.items ≡ text.old.items ++ rows_bytes names.now (days_rows editions.now (touches (record { taps = taps.now; fixes = fixes.now })) through)) }
{
    let from = monday(through);
    for place in 0..through + 1 - from {
        push_day(text, names, editions, taps, fixes, from + place)?;
    }
    Ok(())
}

/// Adds the row of a Credit.
fn push_credit(text: &mut Vec<u8>, names: &Names, fix: &Fix) -> Result<(), AllocError>
    ensures { OnOk result (text.new.items ≡ text.old.items ++ rows_bytes names.now (credit_rows fix.now)) }
{
    match fix.what {
        What::Credit(credit) => push_sum(
            text,
            names,
            RowKind::Credit,
            credit.day(),
            Amount::Off(credit.pence()),
        ),
        _ => Ok(()),
    }
}

/// Adds the rows of Credits.
fn push_credits(text: &mut Vec<u8>, names: &Names, credits: &[Fix]) -> Result<(), AllocError>
    ensures { OnOk result (text.new.items ≡ text.old.items ++ rows_bytes names.now (flat_map credit_rows credits.now)) }
{
    for credit in credits {
        push_credit(text, names, credit)?;
    }
    Ok(())
}

/// Adds the row of what is left of Credits that come to more than the price, if they do.
fn push_unused(
    text: &mut Vec<u8>,
    names: &Names,
    day: u32,
    reason: &DueReason,
) -> Result<(), AllocError>
    requires { IsDay day }
    ensures { OnOk result (text.new.items ≡ text.old.items ++ rows_bytes names.now (unused_rows day reason.now.price reason.now.credits)) }
{
    let left = reason.credits.pence().saturating_sub(reason.price.pence());
    if reason.price.pence() < reason.credits.pence() {
        let amount = Amount::Due(Pence::new(left));
        push_sum(text, names, RowKind::Unused, day, amount)?;
    }
    Ok(())
}

/// Adds the rows of the Credits that count, and of what is left of them.
fn push_due(
    text: &mut Vec<u8>,
    names: &Names,
    fixes: &FixSet,
    through: u32,
    price: Pence,
) -> Result<(), AllocError>
    requires { IsDay through }
    ensures { OnOk result (text.new.items ≡ text.old.items ++ rows_bytes names.now (due_rows fixes.now through (due_reason price fixes.now through))) }
{
    let credits = counted_credits(*text.allocator(), fixes, through)?;
    push_credits(text, names, &credits)?;
    let reason = due_reason(price, fixes, through);
    push_unused(text, names, through, &reason)
}

/// Adds the rows of what is taken off the days' prices.
fn push_sums(
    text: &mut Vec<u8>,
    names: &Names,
    fixes: &FixSet,
    through: u32,
    reason: &CapReason,
) -> Result<(), AllocError>
    requires { IsDay through }
    ensures { OnOk result (text.new.items ≡ text.old.items ++ rows_bytes names.now (sum_rows fixes.now through reason.now)) }
{
    push_cap(text, names, RowKind::WeekCap, through, &reason.band)?;
    push_due(text, names, fixes, through, reason.price)
}

/// Adds the row of a posting.
fn push_posting(text: &mut Vec<u8>, names: &Names, posting: &Posting) -> Result<(), AllocError>
    ensures { OnOk result (text.new.items ≡ text.old.items ++ row_bytes names.now (posted_row posting.now)) }
{
    let amount = Amount::Posted(posting.amount);
    push_sum(
        text,
        names,
        RowKind::Posted,
        posting.quote.through(),
        amount,
    )
}

/// Adds the rows of postings.
fn push_postings(text: &mut Vec<u8>, names: &Names, postings: &[Posting]) -> Result<(), AllocError>
    ensures { OnOk result (text.new.items ≡ text.old.items ++ rows_bytes names.now (posted_rows postings.now)) }
{
    for posting in postings {
        push_posting(text, names, posting)?;
    }
    Ok(())
}

/// The long statement of the week that holds a service day, by the accepted taps and corrections of an account, and by
/// what was posted for that week, where places have these names. An `Err` is out of memory.
///
/// The first row names the ten fields: `date,kind,from,from_name,to,to_name,start,end,amount,posted`. Each journey is a
/// row, in the order of their first taps. After those of a day comes what a cap takes off, after the days what a cap of
/// the week does, and the Credits that count. So `amount` adds up to what is due of the week through its last day, and
/// `posted` to what was charged.
pub fn long_statement(
    alloc: Global,
    names: &Names,
    editions: &Editions,
    taps: &TapSet,
    fixes: &FixSet,
    day: u32,
    postings: &[Posting],
) -> Result<Vec<u8>, AllocError>
    requires { IsDay day }
    ensures { IfOk result (λ text. text.items ≡ statement_text names.now editions.now (record { taps = taps.now; fixes = fixes.now }) day postings.now) }
{
    let through = last_day(day);
    let facts = week_facts(alloc, editions, taps, fixes, through)?;
    let mut text = first_row(alloc)?;
    push_days(&mut text, names, editions, taps, fixes, through)?;
    push_sums(&mut text, names, fixes, through, &facts.reason)?;
    push_postings(&mut text, names, postings)?;
    Ok(text)
}
