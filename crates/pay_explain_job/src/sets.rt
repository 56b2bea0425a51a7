//! What an account has accepted, as sets.
ghost use Rattle.std.specs.Prelude.{◌≡◌, IfOk, OnOk, None};
ghost use Rattle.std.specs.FinMap as map;
ghost use Rattle.pay_rules.specs.SetsParts.{sets};
ghost use Rattle.pay_rules.specs.State.{accepted_of};
ghost use Rattle.pay_rules.specs.Fixes.{number as fix_number};
ghost use Rattle.pay_rules.specs.Taps.{number as tap_number};
ghost use Rattle.pay_shard.specs.Words.{state_now};
ghost use Rattle.pay_explain_job.specs.Numbered.{set_of};

use pay_book::Book;
use pay_fix::FixSet;
use pay_rules::{Addition, Fares, Fix, Sets, Tap};
use pay_shard::Shard;
use pay_taps::TapSet;
use std::alloc::{AllocError, Global};

/// All that an account of a shard has accepted: nothing, where the shard has none of its number.
pub fn sets_of(alloc: Global, shard: &Shard<Book>, account: u32) -> Result<Sets, AllocError>
    ensures { IfOk result (λ it. it ≡ sets account (accepted_of (state_now shard.now) account)) }
{
    match shard.account(account) {
        Some(book) => book.sets(),
        None => Book::new(alloc, account).sets(),
    }
}

/// Adds a tap where none has its number. An `Err` is out of memory.
fn add_tap(set: &mut TapSet, tap: Tap) -> Result<(), AllocError>
    ensures own_number { OnOk result (map.get set.old (tap_number tap) ≡ None) }
    ensures added { OnOk result (set.new ≡ map.insert set.old (tap_number tap) tap) }
{
    pay_rule_laws::sets::judgements::<Tap>();
    match set.add(tap) {
        Ok(Addition::Added) => Ok(()),
        _ => Err(AllocError),
    }
}

/// Adds a correction likewise.
fn add_fix(set: &mut FixSet, fix: Fix) -> Result<(), AllocError>
    ensures own_number { OnOk result (map.get set.old (fix_number fix) ≡ None) }
    ensures added { OnOk result (set.new ≡ map.insert set.old (fix_number fix) fix) }
{
    pay_rule_laws::sets::judgements::<Fix>();
    match set.add(fix) {
        Ok(Addition::Added) => Ok(()),
        _ => Err(AllocError),
    }
}

/// The set of taps, each at its number: an `Err` where two have one, or out of memory.
pub fn tap_set(alloc: Global, taps: &[Tap]) -> Result<TapSet, AllocError>
    ensures { IfOk result (λ set. set ≡ set_of tap_number taps.now) }
{
    let mut set = TapSet::new(alloc);
    for tap in taps {
        add_tap(&mut set, *tap)?;
    }
    Ok(set)
}

/// The set of corrections likewise.
pub fn fix_set(alloc: Global, fixes: &[Fix]) -> Result<FixSet, AllocError>
    ensures { IfOk result (λ set. set ≡ set_of fix_number fixes.now) }
{
    let mut set = FixSet::new(alloc);
    for fix in fixes {
        add_fix(&mut set, *fix)?;
    }
    Ok(set)
}
