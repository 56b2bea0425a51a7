ghost use Rattle.std.specs.Prelude.{◌≡◌, ◌≤◌, map as each, IfOk, OnOk};
ghost use Rattle.std.specs.FinMap as map;
ghost use Rattle.std.specs.List.Sorted.{IsStrictlySortedBy};
ghost use Rattle.std.specs.Ordering.{nat_cmp};
ghost use Rattle.pay_tables.specs.Words.{FareEditions};
ghost use Rattle.pay_rules.specs.Accepted.{Accepted};
ghost use Rattle.pay_rules.specs.State.{accepted_of};
ghost use Rattle.pay_restore.specs.Filed.{held, AreFiled, AreFiledWith};

use pay_rules::Fares;
use std::alloc::{AllocError, Global};
use std::collections::BTreeMap;

/// Takes an account out of those that are kept, or opens it where it is not there.
pub(crate) fn take<F: Fares>(alloc: Global, accounts: &mut BTreeMap<u32, F>, number: u32) -> F
    ensures accepted { F.accepted result ≡ accepted_of (held F.accepted accounts.old.entries) number }
    ensures own { (editions : FareEditions) → AreFiled F.account (F.IsPricedBy editions) accounts.old.entries → F.account result ≡ number }
    ensures priced_by { (editions : FareEditions) → AreFiled F.account (F.IsPricedBy editions) accounts.old.entries → F.IsPricedBy editions result }

    // What is put at its number then stands beside the others.
    ensures others { (accepted : Accepted) → map.insert (held F.accepted accounts.new.entries) number accepted ≡ map.insert (held F.accepted accounts.old.entries) number accepted }
    ensures kept { (editions : FareEditions) → AreFiled F.account (F.IsPricedBy editions) accounts.old.entries → AreFiled F.account (F.IsPricedBy editions) accounts.new.entries }
{
    match accounts.remove(&number) {
        Some(account) => account,
        None => F::new(alloc, number),
    }
}

/// Keeps an account at its number. An `Err` is out of memory.
pub(crate) fn keep<F: Fares>(accounts: &mut BTreeMap<u32, F>, account: F) -> Result<(), AllocError>
    requires { 1 ≤ F.account account }
    ensures state { OnOk result (held F.accepted accounts.new.entries ≡ map.insert (held F.accepted accounts.old.entries) (F.account account) (F.accepted account)) }
    ensures kept { OnOk result (AreFiledWith F.account F.IsPricedBy account accounts.old.entries accounts.new.entries) }
{
    let number = account.number();
    accounts.insert(number, account)?;
    Ok(())
}

/// The accounts in ascending order of their numbers. An `Err` is out of memory.
pub(crate) fn in_order<F: Fares>(
    alloc: Global,
    accounts: BTreeMap<u32, F>,
) -> Result<Vec<F>, AllocError>
    ensures all { IfOk result (λ list. list.items ≡ each (λ e. e.1) accounts.entries) }
    ensures ascending { IsStrictlySortedBy nat_cmp (each (λ e. e.0) accounts.entries) }
{
    let mut list = Vec::new(alloc);
    for (_, account) in accounts {
        list.push(account)?;
    }
    Ok(list)
}
