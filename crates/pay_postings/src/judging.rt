//! Judging quotes and sets by what is there, which takes no memory.
ghost use Rattle.std.specs.Prelude.{◌≡◌, if◌then◌else◌, nat_lt, find, flat_map};
ghost use Rattle.std.specs.List.{list_any};
ghost use Rattle.std.specs.Option.{option_map};
ghost use Rattle.pay_rules.specs.declared.limits.TheConstants.{MOST_TAPS, MOST_FIXES};
ghost use Rattle.pay_rules.specs.Taps.{number as tap_number};
ghost use Rattle.pay_rules.specs.Fixes.{number as fix_number};
ghost use Rattle.pay_rules.specs.SetsParts.{AreNumbered, AreTapsOf, AreFixesOf, SetsParts};
ghost use Rattle.pay_postings.specs.Archive.{is_numbered_as, is_fix_numbered_as};
ghost use Rattle.pay_postings.specs.Archived.{parts};
ghost use Rattle.pay_postings.specs.Postings.{is_quote_of};
ghost use Rattle.pay_postings.specs.Judged.{is_further, becomes_last, last_quoted, is_tap_refused, is_fix_refused, is_set_refused, IsConflictIf};

use crate::archived::Archived;
use crate::new_rows::{fix_there, is_fix_row, is_tap_row, tap_there};
use crate::posted::{Posted, is_again, is_further};
use pay_rows::{FixRow, TapRow};
use pay_rules::{Fix, PostFault, Quote, Sets, Tap};
use pay_set_rows::{fix_row, tap_row};

/// Whether a quote is of an account and a week.
fn is_quote_of(quote: &Quote, account: u32, week: u32) -> bool
    ensures { result ≡ is_quote_of account week quote.now }
{
    quote.account() == account && quote.week() == week
}

/// Whether a quote becomes the one that was posted last for an account and a week, beside that which was.
fn becomes_last(quote: &Quote, account: u32, week: u32, last: Option<&Quote>) -> bool
    ensures { result ≡ becomes_last account week quote.now (option_map (λ q. q.now) last.entry) }
{
    match last {
        Some(posted) => is_quote_of(quote, account, week) && !is_again(quote, posted),
        None => is_quote_of(quote, account, week),
    }
}

/// The quote that was posted last for an account and a week, once others were posted after it.
fn last_quoted<'a>(
    posted: &'a Posted,
    quotes: &'a [Quote],
    account: u32,
    week: u32,
) -> Option<&'a Quote>
    ensures { option_map (λ q. q.now) result ≡ last_quoted posted.now quotes.now account week }
{
    let mut last = posted.last_quote(account, week);
    for quote in quotes {
        if becomes_last(quote, account, week, last) {
            last = Some(quote);
        }
    }
    last
}

/// Whether a quote is posted anew, by the postings of its account and the quotes that come before it in a batch; or why it is
/// refused.
pub(crate) fn judge_quote(
    posted: &Posted,
    before: &[Quote],
    quote: &Quote,
) -> Result<bool, PostFault>
    ensures { result ≡ is_further quote.now (last_quoted posted.now before.now quote.now.account quote.now.week) }
{
    match last_quoted(posted, before, quote.account(), quote.week()) {
        Some(last) => is_further(quote, last),
        None => Ok(true),
    }
}

/// Whether two taps have one number of one account.
fn is_numbered_as(tap: &Tap, other: &Tap) -> bool
    ensures { result ≡ is_numbered_as tap.now other.now }
{
    other.account == tap.account && other.reader == tap.reader && other.seq == tap.seq
}

/// Whether two corrections have.
fn is_fix_numbered_as(fix: &Fix, other: &Fix) -> bool
    ensures { result ≡ is_fix_numbered_as fix.now other.now }
{
    other.account == fix.account && other.staff == fix.staff && other.seq == fix.seq
}

/// The first of taps that has a tap's number.
fn tap_among<'a>(taps: &'a [Tap], tap: &Tap) -> Option<&'a Tap>
    ensures { option_map (λ x. x.now) result ≡ find (is_numbered_as tap.now) taps.now }
{
    taps.iter().find(|other| is_numbered_as(tap, other))
}

/// The first of corrections that has a correction's number.
fn fix_among<'a>(fixes: &'a [Fix], fix: &Fix) -> Option<&'a Fix>
    ensures { option_map (λ x. x.now) result ≡ find (is_fix_numbered_as fix.now) fixes.now }
{
    fixes.iter().find(|other| is_fix_numbered_as(fix, other))
}

/// The first of the taps of sets that has a tap's number.
fn tap_in_sets(sets: &[Sets], tap: &Tap) -> Option<Tap>
    ensures { result ≡ find (is_numbered_as tap.now) (flat_map (λ (s : SetsParts). s.taps) sets.now) }
{
    for set in sets {
        if let Some(there) = tap_among(set.taps(), tap) {
            return Some(*there);
        }
    }
    None
}

/// The first of the corrections of sets that has a correction's number.
fn fix_in_sets(sets: &[Sets], fix: &Fix) -> Option<Fix>
    ensures { result ≡ find (is_fix_numbered_as fix.now) (flat_map (λ (s : SetsParts). s.fixes) sets.now) }
{
    for set in sets {
        if let Some(there) = fix_among(set.fixes(), fix) {
            return Some(*there);
        }
    }
    None
}

/// Whether other content stands at a tap's number, once these sets were archived.
fn is_tap_refused(archived: &[TapRow], before: &[Sets], tap: &Tap) -> bool
    ensures { result ≡ is_tap_refused archived.now before.now tap.now }
{
    let row = tap_row(tap);
    if let Some(there) = tap_there(archived, &row) {
        return !is_tap_row(&row, there);
    }
    match tap_in_sets(before, tap) {
        Some(there) => !is_tap_row(&row, &tap_row(&there)),
        None => false,
    }
}

/// Whether it does at a correction's.
fn is_fix_refused(archived: &[FixRow], before: &[Sets], fix: &Fix) -> bool
    ensures { result ≡ is_fix_refused archived.now before.now fix.now }
{
    let row = fix_row(fix);
    if let Some(there) = fix_there(archived, &row) {
        return !is_fix_row(&row, there);
    }
    match fix_in_sets(before, fix) {
        Some(there) => !is_fix_row(&row, &fix_row(&there)),
        None => false,
    }
}

/// Whether it does at the number of some of these taps.
fn are_taps_refused(archived: &[TapRow], before: &[Sets], taps: &[Tap]) -> bool
    ensures { result ≡ list_any (is_tap_refused archived.now before.now) taps.now }
{
    taps.iter().any(|tap| is_tap_refused(archived, before, tap))
}

/// Whether it does at the number of some of these corrections.
fn are_fixes_refused(archived: &[FixRow], before: &[Sets], fixes: &[Fix]) -> bool
    ensures { result ≡ list_any (is_fix_refused archived.now before.now) fixes.now }
{
    fixes
        .iter()
        .any(|fix| is_fix_refused(archived, before, fix))
}

/// Judges a set by what is archived of its account and by the sets that come before it in a batch.
pub(crate) fn judge_set(archived: &Archived, before: &[Sets], set: &Sets) -> Result<(), PostFault>
    ensures { IsConflictIf (is_set_refused (parts archived.now) before.now set.now) result }
{
    if are_taps_refused(&archived.taps, before, set.taps())
        || are_fixes_refused(&archived.fixes, before, set.fixes())
    {
        return Err(PostFault::ArchiveConflict);
    }
    Ok(())
}

/// The taps and the corrections of a set are its account's, each at a number of its own.
pub(crate) fn are_own(set: &Sets)
    ensures taps { AreTapsOf set.now.account set.now.taps × AreNumbered tap_number MOST_TAPS set.now.taps }
    ensures fixes { AreFixesOf set.now.account set.now.fixes × AreNumbered fix_number MOST_FIXES set.now.fixes }
{
    let _taps = set.taps();
    let _fixes = set.fixes();
}

/// How many of those before a place are looked at: none where all of them are of accounts below this one.
pub(crate) fn looked_at(highest: u32, account: u32, place: usize) -> usize
    ensures { result ≡ (if nat_lt highest account then 0 else place) }
{
    if highest < account { 0 } else { place }
}
