//! The posting that was made last, and the newest of a ledger.
ghost use Rattle.std.specs.Prelude.{◌≡◌, None};
ghost use Rattle.std.specs.List.{list_any, last_or};
ghost use Rattle.pay_ledger.specs.Last.{is_number, is_row_of, posting_at, IsNewestOf};

use crate::fault::LedgerFault;
use pay_rows::PostingRow;
use pay_rules::{PostFault, Posting};
use pay_set_rows::ranged;

/// A posting by its quote: the account, the Monday of the week and the day through which it is, counted from 1970-01-01, and the version of
/// the account; and by its number. A ledger has no two of one such quote, and numbers rise in the order in which postings were made.
#[derive(Clone, Copy, Debug, PartialEq, Eq)]
pub struct LastPosting {
    pub account: u32,
    pub week: u32,
    pub through: u32,
    pub version: u32,
    /// Its number in the ledger, if it is known. An earlier version of the program did not note it.
    pub id: Option<i64>,
}

/// The last of the postings that are made, if any is, beside the number that it got; else the one before.
pub(crate) fn last_of(
    made: &[Posting],
    id: Option<i64>,
    before: Option<LastPosting>,
) -> Option<LastPosting> {
    match made.last() {
        Some(posting) => Some(LastPosting {
            account: posting.quote.account(),
            week: posting.quote.week(),
            through: posting.quote.through(),
            version: posting.quote.version(),
            id,
        }),
        None => before,
    }
}

/// Whether a number is the one that is known, if one is.
fn is_number(known: Option<i64>, id: i64) -> bool
    ensures { result ≡ is_number known id }
{
    match known {
        Some(known) => known == id,
        None => true,
    }
}

/// Whether a row of its account, beside its number, is of this posting.
fn is_row_of(last: &LastPosting, row: &(i64, PostingRow)) -> bool
    ensures { result ≡ is_row_of last.now row.now }
{
    let (id, row) = row;
    row.week == i64::from(last.week)
        && row.through == i64::from(last.through)
        && row.version == i64::from(last.version)
        && is_number(last.id, *id)
}

/// Whether one of these rows of its account is of this posting.
pub(crate) fn is_among(last: &LastPosting, rows: &[(i64, PostingRow)]) -> bool
    ensures { result ≡ list_any (is_row_of last.now) rows.now }
{
    rows.iter().any(|row| is_row_of(last, row))
}

/// The posting of a row, by its number and its account, if each of these and of its quote is a number of 32 bits.
fn posting_at(id: i64, account: i64, row: &PostingRow) -> Option<LastPosting>
    ensures { result ≡ posting_at (id, account, row.now) }
{
    let most = u64::from(u32::MAX);
    let account = ranged(account, 0, most)?;
    let week = ranged(row.week, 0, most)?;
    let through = ranged(row.through, 0, most)?;
    let version = ranged(row.version, 0, most)?;
    Some(LastPosting {
        account: account as u32,
        week: week as u32,
        through: through as u32,
        version: version as u32,
        id: Some(id),
    })
}

/// The last of these numbers of accounts.
pub(crate) fn last_account(accounts: &[i64]) -> Option<i64>
    ensures { result ≡ last_or None accounts.now }
{
    accounts.last().copied()
}

/// The last of these rows, each beside its number.
fn last_row(rows: &[(i64, PostingRow)]) -> Option<(i64, PostingRow)>
    ensures { result ≡ last_or None rows.now }
{
    rows.last().copied()
}

/// The last of the rows of an account as a posting.
pub(crate) fn newest_of(
    account: i64,
    rows: &[(i64, PostingRow)],
) -> Result<Option<LastPosting>, LedgerFault>
    ensures { IsNewestOf account rows.now result }
{
    let Some((id, row)) = last_row(rows) else {
        return Ok(None);
    };
    match posting_at(id, account, &row) {
        Some(posting) => Ok(Some(posting)),
        None => Err(LedgerFault::Refused(PostFault::BadArchive)),
    }
}
