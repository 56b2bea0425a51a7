ghost use Rattle.std.specs.Prelude.{◌≡◌, option_map};
ghost use Rattle.pay_rules.specs.Effective.{voids};
ghost use Rattle.pay_why.specs.Corrections.{drop_of, withdrawn_by, void_of, is_standing_void, withdraws, names, fix_reason, tap_reason};

use crate::correction::{FixReason, TapReason};
use crate::standing::{drops, is_drop, stands};
use pay_fix::{Fix, FixSet, What};
use pay_rules::{Numbered, Tap};
use pay_taps::TapSet;

/// The first of the accepted Drops that names the correction of a staff and seq.
fn drop_of(accepted: &[Fix], named: (u16, u32)) -> Option<&Fix>
    ensures { option_map (λ fix. fix.now) result ≡ drop_of accepted.now named }
{
    accepted.iter().find(|fix| drops(fix, named))
}

/// The Drop that withdrew a correction: none withdraws a Drop.
fn withdrawn_by(accepted: &[Fix], fix: &Fix) -> Option<Fix>
    ensures { result ≡ withdrawn_by accepted.now fix.now }
{
    if is_drop(fix) {
        return None;
    }
    drop_of(accepted, fix.number()).copied()
}

/// Whether a correction is a Void that names the tap of a reader and seq.
fn voids(fix: &Fix, named: (u16, u32)) -> bool
    ensures { result ≡ voids named fix.now.what }
{
    match fix.what {
        What::Void(reader, seq) => (reader, seq) == named,
        _ => false,
    }
}

/// Whether a correction is a Void that stands, and names the tap of a reader and seq.
fn is_standing_void(accepted: &[Fix], fix: &Fix, named: (u16, u32)) -> bool
    ensures { result ≡ is_standing_void accepted.now named fix.now }
{
    voids(fix, named) && stands(accepted, fix)
}

/// The first of the accepted Voids that stands and names the tap of a reader and seq.
fn void_of(accepted: &[Fix], named: (u16, u32)) -> Option<&Fix>
    ensures { option_map (λ fix. fix.now) result ≡ void_of accepted.now named }
{
    accepted
        .iter()
        .find(|fix| is_standing_void(accepted, fix, named))
}

/// Whether a Drop of this correction withdraws it.
fn withdraws(named: Option<Fix>) -> bool
    ensures { result ≡ withdraws named }
{
    match named {
        Some(fix) => !is_drop(&fix),
        None => false,
    }
}

/// Whether what a correction names is there: the tap of a Void, the correction of a Drop that is no Drop.
fn names(taps: &TapSet, fixes: &FixSet, fix: &Fix) -> bool
    ensures { result ≡ names taps.now fixes.now fix.now.what }
{
    match fix.what {
        What::Void(reader, seq) => taps.get(reader, seq).is_some(),
        What::Drop(staff, seq) => withdraws(fixes.get(staff, seq)),
        What::Fill(..) | What::Credit(_) => true,
    }
}

/// What an accepted correction does now. Where several Drops name it, the one of the lowest number is told.
pub fn fix_reason(taps: &TapSet, fixes: &FixSet, fix: &Fix) -> FixReason
    ensures { result ≡ fix_reason taps.now fixes.now fix.now }
{
    let there = names(taps, fixes, fix);
    match withdrawn_by(fixes.as_slice(), fix) {
        Some(drop) => FixReason::DroppedBy(drop.staff, drop.seq),
        None if there => FixReason::Stands,
        None => FixReason::NamesNothing,
    }
}

/// Whether an accepted tap counts, or which Void takes it out: where several do, the one of the lowest
/// number.
pub fn tap_reason(fixes: &FixSet, tap: &Tap) -> TapReason
    ensures { result ≡ tap_reason fixes.now tap.now }
{
    match void_of(fixes.as_slice(), tap.number()) {
        Some(void) => TapReason::VoidedBy(void.staff, void.seq),
        None => TapReason::Effective,
    }
}
