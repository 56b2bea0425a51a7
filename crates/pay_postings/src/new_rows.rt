ghost use Rattle.std.specs.Prelude.{◌≡◌, ◌≢◌, ◌++◌, find, Ok, Err, MatchResult, IfOk, OnOk};
ghost use Rattle.std.specs.Option.{option_map};
ghost use Rattle.pay_rules.specs.declared.post_fault.PostFault.TheVariants.{Memory};
ghost use Rattle.pay_set_rows.specs.SetRows.{tap_row, fix_row};
ghost use Rattle.pay_postings.specs.NewRows.{is_tap_at, is_tap_stamp, is_tap_touch, is_tap_row, is_fix_at, is_fix_form, is_fix_rest, is_fix_row, unless_other, is_new_tap, is_new_fix, new_taps, new_fixes, with_new};

use pay_rows::{FixRow, TapRow};
use pay_rules::{Fix, PostFault, Tap};
use pay_set_rows::{fix_row, tap_row};
use std::alloc::{AllocError, Global};

/// Whether two rows of taps have one number.
fn is_tap_at(row: &TapRow, other: &TapRow) -> bool
    ensures { result ≡ is_tap_at row.now other.now }
{
    row.reader == other.reader && row.seq == other.seq
}

/// Whether they have one instant.
fn is_tap_stamp(row: &TapRow, other: &TapRow) -> bool
    ensures { result ≡ is_tap_stamp row.now other.now }
{
    row.utc == other.utc && row.day == other.day && row.second == other.second
}

/// Whether they have one place and one kind.
fn is_tap_touch(row: &TapRow, other: &TapRow) -> bool
    ensures { result ≡ is_tap_touch row.now other.now }
{
    row.place == other.place && row.kind == other.kind
}

/// Whether they have one content.
pub(crate) fn is_tap_row(row: &TapRow, other: &TapRow) -> bool
    ensures { result ≡ is_tap_row row.now other.now }
{
    is_tap_at(row, other) && is_tap_stamp(row, other) && is_tap_touch(row, other)
}

/// Whether two rows of corrections have one number.
fn is_fix_at(row: &FixRow, other: &FixRow) -> bool
    ensures { result ≡ is_fix_at row.now other.now }
{
    row.staff == other.staff && row.seq == other.seq
}

/// Whether they have one form and one first and second number.
fn is_fix_form(row: &FixRow, other: &FixRow) -> bool
    ensures { result ≡ is_fix_form row.now other.now }
{
    row.what == other.what && row.a == other.a && row.b == other.b
}

/// Whether their further numbers are the same.
fn is_fix_rest(row: &FixRow, other: &FixRow) -> bool
    ensures { result ≡ is_fix_rest row.now other.now }
{
    row.c == other.c && row.d == other.d && row.e == other.e
}

/// Whether they have one content.
pub(crate) fn is_fix_row(row: &FixRow, other: &FixRow) -> bool
    ensures { result ≡ is_fix_row row.now other.now }
{
    is_fix_at(row, other) && is_fix_form(row, other) && is_fix_rest(row, other)
}

/// What is at a number is not written again where it has the same content, and is a conflict where it has another.
fn unless_other(is_same: bool) -> Result<bool, PostFault>
    ensures { result ≡ unless_other is_same }
{
    if is_same {
        Ok(false)
    } else {
        Err(PostFault::ArchiveConflict)
    }
}

/// The archived row of a tap's number.
pub(crate) fn tap_there<'a>(archived: &'a [TapRow], row: &TapRow) -> Option<&'a TapRow>
    ensures { option_map (λ r. r.now) result ≡ find (is_tap_at row.now) archived.now }
{
    archived.iter().find(|there| is_tap_at(row, there))
}

/// The archived row of a correction's number.
pub(crate) fn fix_there<'a>(archived: &'a [FixRow], row: &FixRow) -> Option<&'a FixRow>
    ensures { option_map (λ r. r.now) result ≡ find (is_fix_at row.now) archived.now }
{
    archived.iter().find(|there| is_fix_at(row, there))
}

/// Whether a tap is not archived yet.
fn is_new_tap(archived: &[TapRow], tap: &Tap) -> Result<bool, PostFault>
    ensures { result ≡ is_new_tap archived.now tap.now }
{
    let row = tap_row(tap);
    match tap_there(archived, &row) {
        Some(there) => unless_other(is_tap_row(&row, there)),
        None => Ok(true),
    }
}

/// Whether a correction is not archived yet.
fn is_new_fix(archived: &[FixRow], fix: &Fix) -> Result<bool, PostFault>
    ensures { result ≡ is_new_fix archived.now fix.now }
{
    let row = fix_row(fix);
    match fix_there(archived, &row) {
        Some(there) => unless_other(is_fix_row(&row, there)),
        None => Ok(true),
    }
}

/// One more at the end, if it is new. An `Err` is out of memory.
fn add_new<X: Copy>(list: &mut Vec<X>, x: X, is_new: bool) -> Result<(), AllocError>
    ensures { OnOk result (list.new.items ≡ with_new is_new x list.old.items) }
{
    if is_new {
        list.push(x)?;
    }
    Ok(())
}

/// The taps of an account that are to be written beside its rows that are archived: those whose numbers are not there.
/// `ArchiveConflict` where a number is there with other content.
pub fn new_taps(alloc: Global, archived: &[TapRow], taps: &[Tap]) -> Result<Vec<Tap>, PostFault>
    ensures { MatchResult result (λ new. new_taps archived.now taps.now ≡ Ok new.items) (λ fault. fault ≢ Memory → new_taps archived.now taps.now ≡ Err fault) }
{
    let mut new = Vec::new(alloc);
    for tap in taps {
        let is_new = is_new_tap(archived, tap)?;
        add_new(&mut new, *tap, is_new)?;
    }
    Ok(new)
}

/// The corrections of an account that are to be written, likewise.
pub fn new_fixes(alloc: Global, archived: &[FixRow], fixes: &[Fix]) -> Result<Vec<Fix>, PostFault>
    ensures { MatchResult result (λ new. new_fixes archived.now fixes.now ≡ Ok new.items) (λ fault. fault ≢ Memory → new_fixes archived.now fixes.now ≡ Err fault) }
{
    let mut new = Vec::new(alloc);
    for fix in fixes {
        let is_new = is_new_fix(archived, fix)?;
        add_new(&mut new, *fix, is_new)?;
    }
    Ok(new)
}
