//! One account beside what a ledger has of it.
ghost use Rattle.std.specs.Prelude.{◌≡◌, ◌≤◌, ◌↔◌, true, List, [], IfNone, IfSome, IfOk};
ghost use Rattle.std.specs.List.{AllByRecursion};
ghost use Rattle.pay_rules.specs.declared.limits.TheConstants.{MOST_TAPS, MOST_FIXES};
ghost use Rattle.pay_rules.specs.Taps.{number as tap_number};
ghost use Rattle.pay_rules.specs.Fixes.{number as fix_number};
ghost use Rattle.pay_rules.specs.SetsParts.{AreNumbered};
ghost use Rattle.pay_rules.specs.Accepted.{version as version_of};
ghost use Rattle.pay_set_rows.specs.SetRows.{tap_row, tap_from_row, fix_row, fix_from_row};
ghost use Rattle.pay_postings.specs.Words.{parts, is_posted_so, IsRowOf, AccountAgrees};
ghost use Rattle.pay_audit.specs.Differs.{IsOther, IsOtherItem, ArePostedSo, Differs};

use crate::difference::Difference;
use pay_postings::{Archived, is_kept};
use pay_rows::{FixRow, TapRow};
use pay_rules::{Fares, Fix, PostFault, Posting, Sets, Tap};
use pay_set_rows::{fix_from_row, fix_row, tap_from_row, tap_row};
use pay_tables::Editions;
use std::alloc::AllocError;

/// Whether a row is a tap's.
fn is_of_tap(tap: &Tap, row: &TapRow) -> bool
    ensures { (result ≡ true) ↔ (tap_row tap.now ≡ row.now) }
{
    tap_row(tap) == *row
}

/// Whether a row is a correction's.
fn is_of_fix(fix: &Fix, row: &FixRow) -> bool
    ensures { (result ≡ true) ↔ (fix_row fix.now ≡ row.now) }
{
    fix_row(fix) == *row
}

/// Whether a row is that of one of these taps, which ascend by their numbers.
fn is_tap_row(taps: &[Tap], row: &TapRow) -> bool
    requires { AreNumbered tap_number MOST_TAPS taps.now }
    ensures { (result ≡ true) ↔ IsRowOf tap_row taps.now row.now }
{
    let number = (row.reader, row.seq);
    match taps.binary_search_by_key(&number, |tap| (i64::from(tap.reader), i64::from(tap.seq))) {
        Ok(at) => is_of_tap(&taps[at], row),
        Err(_) => false,
    }
}

/// Whether a row is that of one of these corrections, which ascend by their numbers.
fn is_fix_row(fixes: &[Fix], row: &FixRow) -> bool
    requires { AreNumbered fix_number MOST_FIXES fixes.now }
    ensures { (result ≡ true) ↔ IsRowOf fix_row fixes.now row.now }
{
    let number = (row.staff, row.seq);
    match fixes.binary_search_by_key(&number, |fix| (i64::from(fix.staff), i64::from(fix.seq))) {
        Ok(at) => is_of_fix(&fixes[at], row),
        Err(_) => false,
    }
}

/// The first tap of these rows that is none of these taps. `BadArchive` where that row tells none.
fn other_tap(account: u32, taps: &[Tap], rows: &[TapRow]) -> Result<Option<Tap>, PostFault>
    requires { AreNumbered tap_number MOST_TAPS taps.now }
    ensures agree { IfOk result (λ it. IfNone it (AllByRecursion (IsRowOf tap_row taps.now) rows.now)) }
    ensures differs { IfOk result (λ it. IfSome it (IsOther tap_row (tap_from_row account) taps.now rows.now)) }
{
    for row in rows {
        if !is_tap_row(taps, row) {
            let Some(tap) = tap_from_row(account, row) else {
                return Err(PostFault::BadArchive);
            };
            return Ok(Some(tap));
        }
    }
    Ok(None)
}

/// The first correction of these rows that is none of these corrections. `BadArchive` where that row tells none.
fn other_fix(account: u32, fixes: &[Fix], rows: &[FixRow]) -> Result<Option<Fix>, PostFault>
    requires { AreNumbered fix_number MOST_FIXES fixes.now }
    ensures agree { IfOk result (λ it. IfNone it (AllByRecursion (IsRowOf fix_row fixes.now) rows.now)) }
    ensures differs { IfOk result (λ it. IfSome it (IsOther fix_row (fix_from_row account) fixes.now rows.now)) }
{
    for row in rows {
        if !is_fix_row(fixes, row) {
            let Some(fix) = fix_from_row(account, row) else {
                return Err(PostFault::BadArchive);
            };
            return Ok(Some(fix));
        }
    }
    Ok(None)
}

/// Whether a posting is of an earlier version than the account's, or of this one and just what is due by it.
fn is_posted_so<F: Fares>(
    account: &F,
    editions: &Editions,
    version: usize,
    posting: &Posting,
) -> Result<bool, AllocError>
    requires numbered { 1 ≤ F.account account.now }
    requires priced_by { F.IsPricedBy editions.now account.now }
    requires version { version ≡ version_of (F.accepted account.now) }
    ensures { IfOk result (λ it. it ≡ is_posted_so editions.now (F.account account.now) (F.accepted account.now) posting.now) }
{
    let posted = posting.quote.version() as usize;
    if posted != version {
        return Ok(posted < version);
    }
    let quote = account.quote(editions, posting.quote.through())?;
    Ok(is_kept(&quote, &posting.quote))
}

/// The first posting that is not so.
fn other_posting<F: Fares>(
    account: &F,
    editions: &Editions,
    version: usize,
    postings: &[Posting],
) -> Result<Option<Difference>, AllocError>
    requires numbered { 1 ≤ F.account account.now }
    requires priced_by { F.IsPricedBy editions.now account.now }
    requires version { version ≡ version_of (F.accepted account.now) }
    ensures agree { IfOk result (λ it. IfNone it (ArePostedSo editions.now (F.account account.now) (F.accepted account.now) postings.now)) }
    ensures differs { IfOk result (λ it. IfSome it (Differs editions.now (F.account account.now) (F.accepted account.now) (record { postings = postings.now; taps = []; fixes = [] }))) }
{
    for posting in postings {
        let week = posting.quote.week();
        let through = posting.quote.through();
        if !is_posted_so(account, editions, version, posting)? {
            return Ok(Some(Difference::Posting { week, through }));
        }
    }
    Ok(None)
}

/// The first archived tap or correction that an account has not accepted.
fn other_item(sets: &Sets, archived: &Archived) -> Result<Option<Difference>, PostFault>
    ensures taps { IfOk result (λ it. IfNone it (AllByRecursion (IsRowOf tap_row sets.now.taps) archived.now.taps.items)) }
    ensures fixes { IfOk result (λ it. IfNone it (AllByRecursion (IsRowOf fix_row sets.now.fixes) archived.now.fixes.items)) }
    ensures differs { IfOk result (λ it. IfSome it (IsOtherItem sets.now (parts archived.now))) }
{
    if let Some(tap) = other_tap(sets.account(), sets.taps(), &archived.taps)? {
        return Ok(Some(Difference::Tap(tap)));
    }
    if let Some(fix) = other_fix(sets.account(), sets.fixes(), &archived.fixes)? {
        return Ok(Some(Difference::Fix(fix)));
    }
    Ok(None)
}

/// The first thing that a ledger has of an account and that does not agree with what the account has accepted: a tap, a correction
/// or a posting, in this order.
pub(crate) fn difference<F: Fares>(
    account: &F,
    editions: &Editions,
    archived: &Archived,
) -> Result<Option<Difference>, PostFault>
    requires numbered { 1 ≤ F.account account.now }
    requires priced_by { F.IsPricedBy editions.now account.now }
    ensures agree { IfOk result (λ it. IfNone it (AccountAgrees editions.now (F.account account.now) (F.accepted account.now) (parts archived.now))) }
    ensures differs { IfOk result (λ it. IfSome it (Differs editions.now (F.account account.now) (F.accepted account.now) (parts archived.now))) }
{
    let sets = account.sets()?;
    let version = sets.taps().len() + sets.fixes().len();
    match other_item(&sets, archived)? {
        Some(other) => Ok(Some(other)),
        None => Ok(other_posting(account, editions, version, archived.posted.as_slice())?),
    }
}
