ghost use Rattle.std.specs.Prelude.{◌≡◌};
ghost use Rattle.pay_fix.specs.Changes.{change_by_tap, leaves_unless, enters_unless, change_by_withdrawal, change_by_drop, change_by_standing, change_by_fix};

use crate::fix_set::FixSet;
use crate::standing::{is_voided, is_voided_by_another, stands};
use crate::touches::touch_of_fill;
use pay_rules::{Fix, Numbered, Tap, Touch, What};
use pay_taps::TapSet;

/// What an accepted tap or correction does to the effective taps of its account.
#[derive(Clone, Copy)]
pub enum Change {
    /// They stay as they are.
    Nothing,
    /// One more is effective.
    Enters(Touch),
    /// One is no longer effective.
    Leaves(Touch),
}

/// What a further tap does, which the account does not have yet: it is effective unless a standing Void names it.
pub fn change_by_tap(fixes: &FixSet, tap: &Tap) -> Change
    ensures { result ≡ change_by_tap fixes.now tap.now }
{
    if is_voided(fixes.as_slice(), tap.number()) {
        Change::Nothing
    } else {
        Change::Enters(Touch::from(*tap))
    }
}

/// What a standing Void does by the tap that it names, where that is accepted: a tap that is voided has left already.
fn leaves_unless(voided: bool, tap: Option<Tap>) -> Change
    ensures { result ≡ leaves_unless voided tap }
{
    match tap {
        Some(tap) if !voided => Change::Leaves(Touch::from(tap)),
        _ => Change::Nothing,
    }
}

/// What the withdrawal of a Void does by the tap that it named: a tap that is still voided stays away.
fn enters_unless(voided: bool, tap: Option<Tap>) -> Change
    ensures { result ≡ enters_unless voided tap }
{
    match tap {
        Some(tap) if !voided => Change::Enters(Touch::from(tap)),
        _ => Change::Nothing,
    }
}

/// What an accepted correction that stands does when it is withdrawn.
fn change_by_withdrawal(taps: &TapSet, accepted: &[Fix], fix: &Fix) -> Change
    ensures { result ≡ change_by_withdrawal taps.now accepted.now (fix.now.staff, fix.now.seq) fix.now.what }
{
    match fix.what {
        What::Void(reader, seq) => enters_unless(
            is_voided_by_another(accepted, fix.number(), (reader, seq)),
            taps.get(reader, seq),
        ),
        What::Fill(stamp, place, kind) => {
            Change::Leaves(touch_of_fill(fix.number(), stamp, place, kind))
        }
        What::Credit(_) | What::Drop(..) => Change::Nothing,
    }
}

/// What a Drop does by the accepted correction that it names, if there is one.
fn change_by_drop(taps: &TapSet, accepted: &[Fix], named: Option<Fix>) -> Change
    ensures { result ≡ change_by_drop taps.now accepted.now named }
{
    match named {
        Some(fix) if stands(accepted, &fix) => change_by_withdrawal(taps, accepted, &fix),
        _ => Change::Nothing,
    }
}

/// What a further correction does that stands.
fn change_by_standing(taps: &TapSet, fixes: &FixSet, fix: &Fix) -> Change
    ensures { result ≡ change_by_standing taps.now fixes.now (fix.now.staff, fix.now.seq) fix.now.what }
{
    let accepted = fixes.as_slice();
    match fix.what {
        What::Void(reader, seq) => {
            leaves_unless(is_voided(accepted, (reader, seq)), taps.get(reader, seq))
        }
        What::Fill(stamp, place, kind) => {
            Change::Enters(touch_of_fill(fix.number(), stamp, place, kind))
        }
        What::Credit(_) => Change::Nothing,
        What::Drop(staff, seq) => change_by_drop(taps, accepted, fixes.get(staff, seq)),
    }
}

/// What a further correction does, whose number the account does not have yet.
pub fn change_by_fix(taps: &TapSet, fixes: &FixSet, fix: &Fix) -> Change
    ensures { result ≡ change_by_fix taps.now fixes.now fix.now }
{
    if stands(fixes.as_slice(), fix) {
        change_by_standing(taps, fixes, fix)
    } else {
        Change::Nothing
    }
}
