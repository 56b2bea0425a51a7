ghost use Rattle.std.specs.Prelude.{◌≡◌};
ghost use Rattle.pay_rules.specs.Fixes.{is_drop, drops, is_dropped, stands};
ghost use Rattle.pay_rules.specs.Effective.{voids, is_voided};
ghost use Rattle.pay_fix.specs.Changes.{is_voided_by_another};

use pay_rules::{Fix, Numbered, What};

/// Whether a correction is a Drop.
fn is_drop(fix: &Fix) -> bool
    ensures { result ≡ is_drop fix.now.what }
{
    matches!(fix.what, What::Drop(..))
}

/// Whether a correction is a Drop that names the correction of a staff and seq.
fn drops(fix: &Fix, named: (u16, u32)) -> bool
    ensures { result ≡ drops named fix.now.what }
{
    match fix.what {
        What::Drop(staff, seq) => (staff, seq) == named,
        _ => false,
    }
}

/// Whether a correction is a Void that names the tap of a reader and seq.
fn voids(fix: &Fix, named: (u16, u32)) -> bool
    ensures { result ≡ voids named fix.now.what }
{
    match fix.what {
        What::Void(reader, seq) => (reader, seq) == named,
        _ => false,
    }
}

/// Whether one of these corrections is a Drop that names the correction of a staff and seq.
fn is_dropped(fixes: &[Fix], named: (u16, u32)) -> bool
    ensures { result ≡ is_dropped fixes.now named }
{
    fixes.iter().any(|fix| drops(fix, named))
}

/// Whether a correction stands among these.
pub fn stands(fixes: &[Fix], fix: &Fix) -> bool
    ensures { result ≡ stands fixes.now fix.now }
{
    is_drop(fix) || !is_dropped(fixes, fix.number())
}

/// Whether one of these corrections is a Void that stands, and names the tap of a reader and seq.
pub fn is_voided(fixes: &[Fix], named: (u16, u32)) -> bool
    ensures { result ≡ is_voided fixes.now named }
{
    fixes
        .iter()
        .any(|fix| voids(fix, named) && stands(fixes, fix))
}

/// Whether one of these corrections other than that of a staff and seq, `own`, is a Void that stands, and names
/// the tap of a reader and seq.
pub fn is_voided_by_another(fixes: &[Fix], own: (u16, u32), named: (u16, u32)) -> bool
    ensures { result ≡ is_voided_by_another fixes.now own named }
{
    fixes.iter().any(|fix| fix.number() != own && voids(fix, named) && stands(fixes, fix))
}
