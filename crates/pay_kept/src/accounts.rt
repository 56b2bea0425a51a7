//! The accounts that a journal is of.
ghost use Rattle.std.specs.Prelude.{◌≡◌, ◌<◌, ◌++◌, length, slice_get, Some, IfOk, OnOk, IsPermutation};
ghost use Rattle.pay_kept.specs.Alike.{account_of, asked_of};

use pay_shard::{Asked, Item, Journal};
use std::alloc::{AllocError, Global};

/// Puts the account that a command is of at the end of a list, if it is one account's.
fn put_account(list: &mut Vec<u32>, asked: Asked) -> Result<(), AllocError>
    ensures { OnOk result (list.new.items ≡ list.old.items ++ account_of asked) }
{
    let account = match asked {
        Asked::Tap(tap) => tap.account,
        Asked::Fix(fix) => fix.account,
        Asked::Due { account, .. } | Asked::Show { account, .. } => account,
        Asked::Quotes { .. } => return Ok(()),
    };
    list.push(account).map_err(AllocError::from)
}

/// The item at a place of a journal.
fn item_at(journal: &Journal, place: usize) -> Item
    requires within { place < length journal.now.items }
    requires whole { journal.now.memory.forgotten ≡ 0 }
    ensures { slice_get journal.now.items place ≡ Some result }
{
    match journal.get(place) {
        Some(item) => item,
        None => unreachable!(),
    }
}

/// The accounts of a journal that has forgotten nothing, each as often as it has a command.
fn all_accounts(alloc: Global, journal: &Journal) -> Result<Vec<u32>, AllocError>
    requires { journal.now.memory.forgotten ≡ 0 }
    ensures { IfOk result (λ list. list.items ≡ asked_of journal.now.items) }
{
    let mut list = Vec::new(alloc);
    for place in 0..journal.len() {
        put_account(&mut list, item_at(journal, place).entry.command.asked())?;
    }
    Ok(list)
}

/// The same in ascending order.
pub(crate) fn accounts_in_order(alloc: Global, journal: &Journal) -> Result<Vec<u32>, AllocError>
    requires { journal.now.memory.forgotten ≡ 0 }
    ensures { IfOk result (λ list. IsPermutation (asked_of journal.now.items) list.items) }
{
    let mut list = all_accounts(alloc, journal)?;
    list.sort_unstable();
    Ok(list)
}
