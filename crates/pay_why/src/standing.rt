ghost use Rattle.std.specs.Prelude.{◌≡◌};
ghost use Rattle.pay_rules.specs.Fixes.{drops, is_dropped, is_drop, stands};

use pay_fix::{Fix, What};
use pay_rules::Numbered;

/// Whether a correction is a Drop.
pub fn is_drop(fix: &Fix) -> bool
    ensures { result ≡ is_drop fix.now.what }
{
    matches!(fix.what, What::Drop(..))
}

/// Whether a correction is a Drop that names the correction of a staff and seq.
pub fn drops(fix: &Fix, named: (u16, u32)) -> bool
    ensures { result ≡ drops named fix.now.what }
{
    match fix.what {
        What::Drop(staff, seq) => (staff, seq) == named,
        _ => false,
    }
}

/// Whether one of the accepted corrections is a Drop that names the correction of a staff and seq.
fn is_dropped(accepted: &[Fix], named: (u16, u32)) -> bool
    ensures { result ≡ is_dropped accepted.now named }
{
    accepted.iter().any(|fix| drops(fix, named))
}

/// Whether a correction stands among the accepted ones.
pub fn stands(accepted: &[Fix], fix: &Fix) -> bool
    ensures { result ≡ stands accepted.now fix.now }
{
    is_drop(fix) || !is_dropped(accepted, fix.number())
}
