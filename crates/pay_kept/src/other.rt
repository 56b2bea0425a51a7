//! Whether the accounts of a shard come to the same by an old fare file.
ghost use Rattle.std.specs.Prelude.{◌≡◌, ◌≤◌, IfOk, IfSome, IfNone};
ghost use Rattle.pay_day.specs.declared.limits.TheConstants.{FIRST_DAY, LAST_DAY};
ghost use Rattle.pay_compare.specs.Words.{IsDifference};
ghost use Rattle.pay_compare.specs.Laws.{AreTouchesWithin, IsTouchWithin};
ghost use Rattle.pay_book.specs.Stored.{IsConsistent};
ghost use Rattle.pay_rules.specs.State.{accepted_of};
ghost use Rattle.pay_shard.specs.ShardParts.{state_now};
ghost use Rattle.pay_kept.specs.Alike.{AreAlike, AreTouched, AreWithin, IsLastAlike, IsOutsideOf, IsTouched};

use crate::accounts::accounts_in_order;
use crate::outside::first_outside;
use pay_book::Book;
use pay_compare::{Difference, Key, first_difference};
use pay_day::limits::LAST_DAY;
use pay_rules::{Fares, Touch};
use pay_shard::Shard;
use pay_tables::Editions;
use std::alloc::{AllocError, Global};

/// The first effective tap of an account that is of a later day, or at a place that the old fare file does not have.
fn outside_in(book: &Book, new: &Editions, old: &Editions, last: u32) -> Option<Touch>
    requires { IsConsistent new.now book.now }
    ensures none { IfNone result (AreTouchesWithin old.now last book.now.accepted) }
    ensures some { IfSome result (IsOutsideOf old.now last book.now.accepted) }
{
    match first_outside(old, last, book.by_rail()) {
        Some(touch) => Some(touch),
        None => first_outside(old, last, book.on_buses()),
    }
}

/// The same of the account of a number.
fn outside_of(
    alloc: Global,
    shard: &Shard<Book>,
    account: u32,
    old: &Editions,
    last: u32,
) -> Option<Touch>
    ensures none { IfNone result (AreTouchesWithin old.now last (accepted_of (state_now shard.now) account)) }
    ensures some { IfSome result (IsOutsideOf old.now last (accepted_of (state_now shard.now) account)) }
{
    let new = shard.editions();
    match shard.account(account) {
        Some(book) => outside_in(book, new, old, last),
        None => outside_in(&Book::new(alloc, account), new, old, last),
    }
}

/// The first such tap of any of a shard's accounts, with the account.
fn outside_of_any(
    alloc: Global,
    shard: &Shard<Book>,
    old: &Editions,
    last: u32,
) -> Result<Option<(u32, Touch)>, AllocError>
    requires { shard.now.memory.forgotten ≡ 0 }
    ensures none { IfOk result (λ found. IfNone found (AreWithin shard.now old.now last)) }
    ensures some { IfOk result (λ found. IfSome found (λ it. IsOutsideOf old.now last (accepted_of (state_now shard.now) it.0) it.1)) }
{
    let accounts = accounts_in_order(alloc, shard.journal())?;
    let mut before = None;
    for account in &accounts {
        if before == Some(*account) {
            continue;
        }
        if let Some(touch) = outside_of(alloc, shard, *account, old, last) {
            return Ok(Some((*account, touch)));
        }
        before = Some(*account);
    }
    Ok(None)
}

/// The last day before a difference, or the last that there may be.
fn last_alike(first: Option<Difference>) -> u32
    requires { IfSome first (λ d. FIRST_DAY ≤ d.day) }
    ensures { IsLastAlike first result }
{
    match first {
        Some(difference) => difference.day - 1,
        None => LAST_DAY,
    }
}

/// What an effective tap shows to be other: its place, which the old fare file does not have, or the first difference of the two files.
fn shown_by(
    new: &Editions,
    old: &Editions,
    first: Option<Difference>,
    last: u32,
    touch: &Touch,
) -> Difference
    requires last { IsLastAlike first last }
    requires first { IfSome first (λ d. IsDifference new.now old.now d.day d.key) }
    requires outside { ¬ IsTouchWithin old.now last touch.now }
    ensures { IsTouched new.now old.now result touch.now }
{
    let day = touch.stamp.day();
    if old.own().place(touch.place).is_none() {
        return Difference {
            day,
            key: Key::Place(touch.place),
        };
    }
    let Some(difference) = first else {
        unreachable!()
    };
    difference
}

/// What an old fare file says otherwise, and a tap that shows it.
#[derive(Clone, Copy)]
pub(crate) struct Other {
    /// The day and the key.
    pub difference: Difference,
    /// The account that has the tap.
    pub account: u32,
    /// The service day of the tap.
    pub on: u32,
}

/// What an old fare file says otherwise than a shard's: the first day and key by which the two differ, if an account has an effective tap
/// from that day on; or the place of one that the old file does not have. Where there is none, each account comes to the same by both.
pub(crate) fn first_other(
    alloc: Global,
    shard: &Shard<Book>,
    old: &Editions,
) -> Result<Option<Other>, AllocError>
    requires { shard.now.memory.forgotten ≡ 0 }
    ensures alike { IfOk result (λ found. IfNone found (AreAlike shard.now old.now)) }
    ensures other { IfOk result (λ found. IfSome found (λ it. AreTouched shard.now old.now it.difference it.account it.on)) }
{
    let new = shard.editions();
    pay_compare::laws::agreement(new, old);
    let first = first_difference(new, old);
    let last = last_alike(first);
    match outside_of_any(alloc, shard, old, last)? {
        Some((account, touch)) => Ok(Some(Other {
            difference: shown_by(new, old, first, last, &touch),
            account,
            on: touch.stamp.day(),
        })),
        None => Ok(None),
    }
}
