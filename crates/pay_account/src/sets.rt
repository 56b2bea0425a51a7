ghost use Rattle.std.specs.Prelude.{◌≡◌, IfOk};
ghost use Rattle.std.specs.FinMap.{values};
ghost use Rattle.pay_rules.specs.SetsParts.{AreTapsOf, AreFixesOf, sets};

use pay_fix::FixSet;
use pay_rules::Sets;
use pay_taps::TapSet;
use std::alloc::{AllocError, Global};

/// All that an account has accepted, by its sets of taps and of corrections. An `Err` is out of memory.
pub fn sets_of(
    alloc: Global,
    account: u32,
    taps: &TapSet,
    fixes: &FixSet,
) -> Result<Sets, AllocError>
    requires own_taps { AreTapsOf account (values taps.now) }
    requires own_fixes { AreFixesOf account (values fixes.now) }
    ensures { IfOk result (λ it. it ≡ sets account (record { taps = taps.now; fixes = fixes.now })) }
{
    let taps = taps.list(alloc)?;
    let fixes = fixes.list(alloc)?;
    Ok(Sets::of(account, taps, fixes))
}
