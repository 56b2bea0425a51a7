ghost use Rattle.std.specs.Prelude.{◌≡◌, ◌≤◌, ◌+◌, ◌++◌, map, length, if◌then◌else◌, List, [], IfOk, OnOk};
ghost use Rattle.std.specs.FinMap.{len, values};
ghost use Rattle.std.specs.List.{flat_map};
ghost use Rattle.pay_rules.specs.Order.{touch_of};
ghost use Rattle.pay_rules.specs.declared.limits.TheConstants.{MOST_TOUCHES};
ghost use Rattle.pay_rules.specs.Effective.{not_voided, effective, touch_of_fill, fill_of, filled_by};

use crate::fix_set::FixSet;
use crate::standing::{is_voided, stands};
use pay_day::Moment;
use pay_rules::{Fix, Kind, Numbered, Tap, Touch, What};
use pay_taps::{TapSet, sort_touches};
use std::alloc::{AllocError, Global};

/// Adds those of some taps that no standing Void names, as effective ones.
fn add_run(list: &mut Vec<Touch>, taps: &[Tap], fixes: &[Fix]) -> Result<(), AllocError>
    ensures value { OnOk result (list.new.items ≡ list.old.items ++ map touch_of (not_voided fixes.now taps.now)) }
    ensures few { OnOk result (length list.new.items ≤ length list.old.items + length taps.now) }
{
    for tap in taps {
        if !is_voided(fixes, tap.number()) {
            list.push(Touch::from(*tap))?;
        }
    }
    Ok(())
}

/// Adds the taps of an account that no standing Void names, as effective ones.
fn add_taps(list: &mut Vec<Touch>, taps: &TapSet, fixes: &[Fix]) -> Result<(), AllocError>
    ensures value { OnOk result (list.new.items ≡ list.old.items ++ map touch_of (not_voided fixes.now (values taps.now))) }
    ensures few { OnOk result (length list.new.items ≤ length list.old.items + len taps.now) }
{
    let mut place = 0;
    while place < taps.len() {
        let run = taps.run_from(place);
        add_run(list, run, fixes)?;
        place += run.len();
    }
    Ok(())
}

/// The tap that a Fill of a number adds.
pub fn touch_of_fill(own: (u16, u32), stamp: Moment, place: u16, kind: Kind) -> Touch
    ensures { result ≡ touch_of_fill own stamp place kind }
{
    Touch {
        filled: true,
        first: own.0,
        second: own.1,
        stamp,
        place,
        kind,
    }
}

/// Adds the tap that a correction adds, if it is a Fill.
fn add_fill(list: &mut Vec<Touch>, fix: &Fix) -> Result<(), AllocError>
    ensures value { OnOk result (list.new.items ≡ list.old.items ++ fill_of (fix.now.staff, fix.now.seq) fix.now.what) }
    ensures few { OnOk result (length list.new.items ≤ length list.old.items + 1) }
{
    if let What::Fill(stamp, place, kind) = fix.what {
        list.push(touch_of_fill(fix.number(), stamp, place, kind))?;
    }
    Ok(())
}

/// Adds the taps of those of some corrections that are Fills and stand among the accepted ones.
fn add_fills(list: &mut Vec<Touch>, fixes: &[Fix], accepted: &[Fix]) -> Result<(), AllocError>
    ensures value { OnOk result (list.new.items ≡ list.old.items ++ flat_map (filled_by accepted.now) fixes.now) }
    ensures few { OnOk result (length list.new.items ≤ length list.old.items + length fixes.now) }
{
    for fix in fixes {
        if stands(accepted, fix) {
            add_fill(list, fix)?;
        }
    }
    Ok(())
}

/// The effective taps of an account, in order: the accepted taps that no standing Void names, and the taps of
/// standing Fills. An `Err` is out of memory.
pub fn effective(alloc: Global, taps: &TapSet, fixes: &FixSet) -> Result<Vec<Touch>, AllocError>
    ensures value { IfOk result (λ list. list.items ≡ effective taps.now fixes.now) }
    ensures few { IfOk result (λ list. length list.items ≤ MOST_TOUCHES) }
{
    let mut list = Vec::with_capacity(alloc, taps.len() + fixes.len())?;
    let accepted = fixes.as_slice();
    add_taps(&mut list, taps, accepted)?;
    add_fills(&mut list, accepted, accepted)?;
    sort_touches(&mut list)?;
    Ok(list)
}
