ghost use Rattle.std.specs.Prelude.{◌≡◌, IfErr};
ghost use Rattle.pay_restore.specs.Restored.{with_archived_tap, with_archived_fix, fault_of_tap, fault_of_fix, IsRestoredAs, IsWantFor};

use pay_rules::{Fares, Fix, FixFault, PostFault, Tap, TapFault};
use pay_tables::Editions;

/// What it is for an archive that an account refuses a tap of it: only want of memory is no fault of the archive.
fn fault_of_tap(fault: TapFault) -> PostFault
    ensures { result ≡ fault_of_tap fault }
{
    match fault {
        TapFault::Memory => PostFault::Memory,
        _ => PostFault::BadArchive,
    }
}

/// And that it refuses a correction.
fn fault_of_fix(fault: FixFault) -> PostFault
    ensures { result ≡ fault_of_fix fault }
{
    match fault {
        FixFault::Memory => PostFault::Memory,
        _ => PostFault::BadArchive,
    }
}

/// Hands an archived tap to its account again. One that the account refuses was never archived: `BadArchive`.
pub(crate) fn retake_tap<F: Fares>(
    account: &mut F,
    editions: &Editions,
    tap: Tap,
) -> Result<(), PostFault>
    requires own { tap.account ≡ F.account account.old }
    requires priced_by { F.IsPricedBy editions.now account.old }
    ensures answer { IsRestoredAs result (with_archived_tap editions.now (F.accepted account.old) tap) (F.accepted account.new) }
    ensures memory { IfErr result (IsWantFor (with_archived_tap editions.now (F.accepted account.old) tap)) }
    ensures same_account { F.account account.new ≡ F.account account.old }
    ensures priced_by { F.IsPricedBy editions.now account.new }
{
    match account.tap(editions, tap) {
        Ok(_) => Ok(()),
        Err(fault) => Err(fault_of_tap(fault)),
    }
}

/// Hands it an archived correction, likewise.
pub(crate) fn retake_fix<F: Fares>(
    account: &mut F,
    editions: &Editions,
    fix: Fix,
) -> Result<(), PostFault>
    requires own { fix.account ≡ F.account account.old }
    requires priced_by { F.IsPricedBy editions.now account.old }
    ensures answer { IsRestoredAs result (with_archived_fix editions.now (F.accepted account.old) fix) (F.accepted account.new) }
    ensures memory { IfErr result (IsWantFor (with_archived_fix editions.now (F.accepted account.old) fix)) }
    ensures same_account { F.account account.new ≡ F.account account.old }
    ensures priced_by { F.IsPricedBy editions.now account.new }
{
    match account.fix(editions, fix) {
        Ok(_) => Ok(()),
        Err(fault) => Err(fault_of_fix(fault)),
    }
}
