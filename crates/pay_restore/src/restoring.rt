ghost use Rattle.std.specs.Prelude.{map as each, IfOk, IfErr, OnOk};
ghost use Rattle.std.specs.List.{IsDistinct};
ghost use Rattle.std.specs.List.Sorted.{IsStrictlySortedBy};
ghost use Rattle.std.specs.Ordering.{nat_cmp, eq_by_cmp};
ghost use Rattle.pay_rules.specs.State.{ArePriced};
ghost use Rattle.pay_restore.specs.Filed.{held, AreFiled};
ghost use Rattle.pay_restore.specs.Restored.{with_tap_row, with_tap_rows, with_fix_row, with_fix_rows, restored, with_accepted, AreAccountsOf, IsRestoredAs, IsWantFor};

use crate::keeping::{in_order, keep, take};
use crate::reading::{fix_of_row, tap_of_row};
use crate::retaking::{retake_fix, retake_tap};
use pay_rows::{FixRow, TapRow};
use pay_rules::{Fares, PostFault};
use pay_tables::Editions;
use std::alloc::Global;
use std::collections::BTreeMap;

/// Hands the tap of a row to its account, which the first one opens.
fn add_tap<F: Fares>(
    alloc: Global,
    editions: &Editions,
    accounts: &mut BTreeMap<u32, F>,
    row: &(i64, TapRow),
) -> Result<(), PostFault>
    requires { AreFiled F.account (F.IsPricedBy editions.now) accounts.old.entries }
    ensures answer { IsRestoredAs result (with_tap_row editions.now (held F.accepted accounts.old.entries) row.now) (held F.accepted accounts.new.entries) }
    ensures memory { IfErr result (IsWantFor (with_tap_row editions.now (held F.accepted accounts.old.entries) row.now)) }
    ensures kept { OnOk result (AreFiled F.account (F.IsPricedBy editions.now) accounts.new.entries) }
{
    let Some(tap) = tap_of_row(row) else {
        return Err(PostFault::BadArchive);
    };
    let mut account: F = take(alloc, accounts, tap.account);
    retake_tap(&mut account, editions, tap)?;
    keep(accounts, account)?;
    Ok(())
}

/// Hands it the correction of a row, likewise.
fn add_fix<F: Fares>(
    alloc: Global,
    editions: &Editions,
    accounts: &mut BTreeMap<u32, F>,
    row: &(i64, FixRow),
) -> Result<(), PostFault>
    requires { AreFiled F.account (F.IsPricedBy editions.now) accounts.old.entries }
    ensures answer { IsRestoredAs result (with_fix_row editions.now (held F.accepted accounts.old.entries) row.now) (held F.accepted accounts.new.entries) }
    ensures memory { IfErr result (IsWantFor (with_fix_row editions.now (held F.accepted accounts.old.entries) row.now)) }
    ensures kept { OnOk result (AreFiled F.account (F.IsPricedBy editions.now) accounts.new.entries) }
{
    let Some(fix) = fix_of_row(row) else {
        return Err(PostFault::BadArchive);
    };
    let mut account: F = take(alloc, accounts, fix.account);
    retake_fix(&mut account, editions, fix)?;
    keep(accounts, account)?;
    Ok(())
}

/// Hands the taps of rows to their accounts, one after another.
fn add_taps<F: Fares>(
    alloc: Global,
    editions: &Editions,
    accounts: &mut BTreeMap<u32, F>,
    rows: &[(i64, TapRow)],
) -> Result<(), PostFault>
    requires { AreFiled F.account (F.IsPricedBy editions.now) accounts.old.entries }
    ensures answer { IsRestoredAs result (with_tap_rows editions.now (held F.accepted accounts.old.entries) rows.now) (held F.accepted accounts.new.entries) }
    ensures kept { OnOk result (AreFiled F.account (F.IsPricedBy editions.now) accounts.new.entries) }
{
    for row in rows {
        add_tap(alloc, editions, accounts, row)?;
    }
    Ok(())
}

/// Hands them the corrections of rows, likewise.
fn add_fixes<F: Fares>(
    alloc: Global,
    editions: &Editions,
    accounts: &mut BTreeMap<u32, F>,
    rows: &[(i64, FixRow)],
) -> Result<(), PostFault>
    requires { AreFiled F.account (F.IsPricedBy editions.now) accounts.old.entries }
    ensures answer { IsRestoredAs result (with_fix_rows editions.now (held F.accepted accounts.old.entries) rows.now) (held F.accepted accounts.new.entries) }
    ensures kept { OnOk result (AreFiled F.account (F.IsPricedBy editions.now) accounts.new.entries) }
{
    for row in rows {
        add_fix(alloc, editions, accounts, row)?;
    }
    Ok(())
}

/// The accounts of an archive, one for each account number in it, in ascending order, priced by these editions: each has
/// accepted just its archived taps and corrections. The rows stand beside their accounts, in any order. `BadArchive` where
/// a row has a number out of its range, or where an account would refuse what it tells: the editions have no such place of
/// the sort that it needs, another tap or correction of the account has its number, or there are more than it may have.
pub fn restored<F: Fares>(
    alloc: Global,
    editions: &Editions,
    taps: &[(i64, TapRow)],
    fixes: &[(i64, FixRow)],
) -> Result<Vec<F>, PostFault>
    ensures answer { AreAccountsOf result (restored editions.now taps.now fixes.now) (λ accounts. with_accepted F.account F.accepted accounts.items) }

    // So they may be those that a shard begins with.
    ensures ascending { IfOk result (λ accounts. IsStrictlySortedBy nat_cmp (each F.account accounts.items)) }
    ensures distinct { IfOk result (λ accounts. IsDistinct (eq_by_cmp nat_cmp) (each F.account accounts.items)) }
    ensures priced { IfOk result (λ accounts. ArePriced F.account (F.IsPricedBy editions.now) accounts.items) }
{
    let mut accounts: BTreeMap<u32, F> = BTreeMap::new(alloc);
    add_taps(alloc, editions, &mut accounts, taps)?;
    add_fixes(alloc, editions, &mut accounts, fixes)?;
    Ok(in_order(alloc, accounts)?)
}
