ghost use Rattle.std.specs.Prelude.{◌≡◌, ◌≤◌, ◌<◌, ◌+◌, ◌++◌, ◌∷◌, [], ℕ, if◌then◌else◌, pos, map, sum, unsigned_abs, get_or, All, IfOk, OnOk, IfSome, true};
ghost use Rattle.std.specs.List.{list_all};
ghost use Rattle.pay_money.specs.declared.limits.TheConstants.{MOST_MONEY, OPERATORS};
ghost use Rattle.pay_rules.specs.QuoteParts.{IsEditionDay, IsQuote};
ghost use Rattle.pay_set_rows.specs.Readings.{IsReadAs};
ghost use Rattle.pay_postings.specs.Amounts.{IsMoney, added};
ghost use Rattle.pay_postings.specs.Paid.{AreRead};
ghost use Rattle.pay_postings.specs.PostingRows.{is_money, is_share_row, is_natural, is_share_of, amounts_of, naturals, edition_from_row, quote_from_row, quote_after, is_amount_after, posting_after, week_from_row, posting_from_row, postings_from_rows, posting_row, share_rows, share_rows_from, share_row};
ghost use Rattle.pay_postings.specs.NetRows.{with_amount_of, net_from_rows};

use crate::posted::Posted;
use pay_day::limits::{FIRST_DAY, LAST_DAY};
use pay_money::Pence;
use pay_money::limits::{MOST_MONEY, OPERATORS};
use pay_rows::{PostingRow, ShareRow};
use pay_rules::limits::{MOST_FIXES, MOST_TAPS};
use pay_rules::{PostFault, Posting, Quote};
use pay_set_rows::ranged;
use std::alloc::{AllocError, Global};

/// Whether an amount is within the largest sum of money either way.
fn is_money(amount: i64) -> bool
    ensures { result ≡ is_money amount }
{
    amount.unsigned_abs() <= MOST_MONEY
}

/// Whether a row of a share names an operator, and its amount is a sum of money.
fn is_share_row(row: &ShareRow) -> bool
    ensures { result ≡ is_share_row row.now }
{
    ranged(row.operator, 1, OPERATORS as u64).is_some() && is_money(row.amount)
}

/// Whether all rows of shares do.
fn are_share_rows(shares: &[ShareRow]) -> bool
    ensures { result ≡ list_all is_share_row shares.now }
{
    shares.iter().all(|row| is_share_row(row))
}

/// Puts in what a row says, if it is of a posting.
fn put_share(amounts: &mut [i64; OPERATORS], id: i64, row: &ShareRow)
    ensures { (k : ℕ) → k < OPERATORS → get_or amounts.new k (pos 0) ≡ (if is_share_of id (k + 1) row.now then row.now.amount else get_or amounts.old k (pos 0)) }
{
    if row.posting == id {
        if let Some(operator) = ranged(row.operator, 1, OPERATORS as u64) {
            amounts[operator as usize - 1] = row.amount;
        }
    }
}

/// What rows say that fell to each operator of a posting, from operator 1 on: nothing without a row. The first of several would
/// count, so they are looked at from the last on.
fn amounts_of(shares: &[ShareRow], id: i64) -> [i64; OPERATORS]
    requires { list_all is_share_row shares.now ≡ true }
    ensures value { result ≡ amounts_of shares.now id }
    ensures in_range { All IsMoney result }
{
    let mut amounts = [0; OPERATORS];
    for place in (0..shares.len()).rev() {
        put_share(&mut amounts, id, &shares[place]);
    }
    amounts
}

/// Amounts beside what was posted for each operator.
fn added(posted: &[u64; OPERATORS], amounts: &[i64; OPERATORS]) -> [i64; OPERATORS]
    requires posted { sum posted.now ≤ MOST_MONEY }
    requires amounts { All IsMoney amounts.now }
    ensures { result ≡ added (map pos posted.now) amounts.now }
{
    let mut sums = [0; OPERATORS];
    for place in 0..OPERATORS {
        sums[place] = posted[place] as i64 + amounts[place];
    }
    sums
}

/// Each amount, whichever way it is.
fn magnitudes(amounts: &[i64; OPERATORS]) -> [u64; OPERATORS]
    ensures { result ≡ map unsigned_abs amounts.now }
{
    let mut magnitudes = [0; OPERATORS];
    for place in 0..OPERATORS {
        magnitudes[place] = amounts[place].unsigned_abs();
    }
    magnitudes
}

/// Whether an amount is not below 0.
fn is_natural(amount: i64) -> bool
    ensures { result ≡ is_natural amount }
{
    0 <= amount
}

/// Whether none of these is.
fn are_natural(amounts: &[i64; OPERATORS]) -> bool
    ensures { result ≡ list_all is_natural amounts.now }
{
    amounts.iter().all(|amount| is_natural(*amount))
}

/// Amounts as shares, if none is below 0.
fn naturals(amounts: &[i64; OPERATORS]) -> Option<[u64; OPERATORS]>
    ensures { result ≡ naturals amounts.now }
{
    if are_natural(amounts) {
        Some(magnitudes(amounts))
    } else {
        None
    }
}

/// The first day of the edition of a row: a service day, or 0.
fn edition_from_row(row: &PostingRow) -> Option<u32>
    ensures value { result ≡ edition_from_row row.now }
    ensures in_range { IfSome result IsEditionDay }
{
    if row.edition == 0 {
        return Some(0);
    }
    Some(ranged(row.edition, u64::from(FIRST_DAY), u64::from(LAST_DAY))? as u32)
}

/// The quote of a row, by its week and the shares that were posted up to it.
fn quote_from_row(
    account: u32,
    week: u32,
    row: &PostingRow,
    shares: [u64; OPERATORS],
) -> Option<Quote>
    ensures value { result ≡ quote_from_row account week row.now shares }
    ensures read { IfSome result (λ quote. IsQuote quote) }
{
    let through = ranged(row.through, u64::from(FIRST_DAY), u64::from(LAST_DAY))?;
    let version = ranged(row.version, 0, (MOST_TAPS + MOST_FIXES) as u64)?;
    let due = ranged(row.due, 0, MOST_MONEY)?;
    let edition = edition_from_row(row)?;
    Quote::rebuilt(
        account,
        week,
        through as u32,
        version as u32,
        Pence::new(due),
        edition,
        shares,
    )
}

/// The quote of a row, by its week and what of its posting fell to each operator, after the postings before it.
fn quote_after(
    account: u32,
    week: u32,
    before: &Posted,
    amounts: &[i64; OPERATORS],
    row: &PostingRow,
) -> Option<Quote>
    requires { All IsMoney amounts.now }
    ensures value { result ≡ quote_after account week before.now amounts.now row.now }
    ensures read { IfSome result (λ quote. IsQuote quote) }
{
    let posted = before.shares(account, week);
    let shares = naturals(&added(&posted, amounts))?;
    quote_from_row(account, week, row, shares)
}

/// Whether an amount is a sum of money, by itself and with those of its week before it.
fn is_amount_after(account: u32, week: u32, before: &Posted, amount: i64) -> bool
    ensures { result ≡ is_amount_after account week before.now amount }
{
    is_money(amount) && is_money(before.net(account, week) + amount)
}

/// The posting of a row, by its week and what of it fell to each operator, after those before it.
fn posting_after(
    account: u32,
    week: u32,
    before: &Posted,
    amounts: [i64; OPERATORS],
    row: &PostingRow,
) -> Option<Posting>
    requires { All IsMoney amounts }
    ensures value { result ≡ posting_after account week before.now amounts row.now }
    ensures read { IfSome result (λ p. AreRead (before.now ++ p ∷ [])) }
{
    let _read = before.as_slice();
    let quote = quote_after(account, week, before, &amounts, row)?;
    if is_amount_after(account, week, before, row.amount) {
        Some(Posting {
            quote,
            amount: row.amount,
            share_amounts: amounts,
        })
    } else {
        None
    }
}

/// The week of a row, if it is named by a service day.
fn week_from_row(row: &PostingRow) -> Option<u32>
    ensures { result ≡ week_from_row row.now }
{
    Some(ranged(row.week, u64::from(FIRST_DAY), u64::from(LAST_DAY))? as u32)
}

/// The posting of a row, after those before it.
fn posting_from_row(
    account: u32,
    shares: &[ShareRow],
    before: &Posted,
    id: i64,
    row: &PostingRow,
) -> Option<Posting>
    requires { list_all is_share_row shares.now ≡ true }
    ensures value { result ≡ posting_from_row account shares.now before.now id row.now }
    ensures read { IfSome result (λ p. AreRead (before.now ++ p ∷ [])) }
{
    let week = week_from_row(row)?;
    let amounts = amounts_of(shares, id);
    posting_after(account, week, before, amounts, row)
}

/// The postings of an account by its rows, each beside its number and in ascending order of these, and the rows of their
/// shares in any order. `BadArchive` where a row gives no quote with the shares that were posted up to it, or an operator
/// is not from 1 to 16, or an amount is no sum of money, by itself or with those of its week before it.
pub fn postings_from_rows(
    alloc: Global,
    account: u32,
    rows: &[(i64, PostingRow)],
    shares: &[ShareRow],
) -> Result<Posted, PostFault>
    ensures { IsReadAs result (postings_from_rows account rows.now shares.now) }
{
    if !are_share_rows(shares) {
        return Err(PostFault::BadArchive);
    }
    let mut postings = Posted::new(alloc);
    for (id, row) in rows {
        let Some(posting) = posting_from_row(account, shares, &postings, *id, row) else {
            return Err(PostFault::BadArchive);
        };
        postings.push(posting)?;
    }
    Ok(postings)
}

/// What was charged for a week, with a further row: none where an amount of the week is no sum of money, by itself or with
/// those before it.
fn with_amount_of(week: u32, so_far: i64, row: &PostingRow) -> Option<i64>
    requires { IsMoney so_far }
    ensures value { result ≡ with_amount_of week so_far row.now }
    ensures in_range { IfSome result IsMoney }
{
    if row.week != i64::from(week) {
        return Some(so_far);
    }
    if !is_money(row.amount) {
        return None;
    }
    if is_money(so_far + row.amount) {
        Some(so_far + row.amount)
    } else {
        None
    }
}

/// What an account was charged for a week less what it was given back, by the rows of its postings, each beside its number
/// and in ascending order of these: the sum of their amounts. None where one of these is no sum of money, by itself or with
/// those of the week before it. Nothing else of the rows is looked at, nor the rows of other weeks.
pub fn net_from_rows(week: u32, rows: &[(i64, PostingRow)]) -> Option<i64>
    ensures { result ≡ net_from_rows week rows.now }
{
    let mut net = 0;
    for (_, row) in rows {
        net = with_amount_of(week, net, row)?;
    }
    Some(net)
}

/// A posting as a row.
pub fn posting_row(posting: &Posting) -> PostingRow
    ensures { result ≡ posting_row posting.now }
{
    PostingRow {
        week: i64::from(posting.quote.week()),
        through: i64::from(posting.quote.through()),
        version: i64::from(posting.quote.version()),
        due: posting.quote.due().pence() as i64,
        amount: posting.amount,
        edition: i64::from(posting.quote.edition()),
    }
}

/// One more row of a share, unless its amount is 0. An `Err` is out of memory.
fn add_share(
    rows: &mut Vec<ShareRow>,
    id: i64,
    operator: usize,
    amount: i64,
) -> Result<(), AllocError>
    requires { operator ≤ OPERATORS }
    ensures { OnOk result (rows.new.items ≡ rows.old.items ++ share_row id operator amount) }
{
    if amount != 0 {
        rows.push(ShareRow {
            posting: id,
            operator: operator as i64,
            amount,
        })?;
    }
    Ok(())
}

/// The amounts of all operators as rows: one for each that is not 0.
fn rows_of_amounts(
    alloc: Global,
    id: i64,
    amounts: &[i64; OPERATORS],
) -> Result<Vec<ShareRow>, AllocError>
    ensures { IfOk result (λ rows. rows.items ≡ share_rows_from id 1 amounts.now) }
{
    let mut rows = Vec::new(alloc);
    for place in 0..OPERATORS {
        add_share(&mut rows, id, place + 1, amounts[place])?;
    }
    Ok(rows)
}

/// The share amounts of a posting as rows: one for each operator whose amount is not 0.
pub fn share_rows(alloc: Global, id: i64, posting: &Posting) -> Result<Vec<ShareRow>, AllocError>
    ensures { IfOk result (λ rows. rows.items ≡ share_rows id posting.now) }
{
    rows_of_amounts(alloc, id, &posting.share_amounts)
}
