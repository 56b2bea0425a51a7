ghost use Rattle.std.specs.Prelude.{◌≡◌, IfOk};
ghost use Rattle.pay_rules.specs.Hopper.{IsPayingSet, instants_of, paying_marks};
ghost use Rattle.pay_hopper.specs.LastPaid.{pays_by_last};

use pay_day::Moment;
use pay_rules::Touch;
use pay_tables::Tables;
use std::alloc::{AllocError, Global};

/// Whether a bus tap pays, where `last_paid` is the moment of the last one before it that paid, if any
/// did: it pays when that moment is more than `hopper` seconds before it, or when there is none.
///
/// Asked of each bus tap of an account in their order, it gives the marks of `paying`.
pub fn pays(tables: &Tables, last_paid: &Option<Moment>, tap: &Touch) -> bool
    ensures { result ≡ pays_by_last tables.now.rules.hopper last_paid.now tap.now.stamp.utc }
{
    let hopper = u64::from(tables.rules().hopper);
    match last_paid {
        Some(paid) => tap.stamp.utc() > paid.utc() + hopper,
        None => true,
    }
}

/// Which of an account's bus taps pay: a mark for each tap, in the order of the taps.
///
/// A bus tap pays just when no earlier paying one is at most `hopper` seconds before it; of two at
/// one instant the second does not pay. Rail taps between do not matter, so `taps` are the bus taps
/// alone, in their order. Hopper lasts across the end of a service day. An `Err` is out of memory.
pub fn paying(alloc: Global, tables: &Tables, taps: &[Touch]) -> Result<Vec<bool>, AllocError>
    ensures described { IfOk result (λ marks. IsPayingSet tables.now.rules.hopper (instants_of taps.now) marks.items) }
    ensures computed { IfOk result (λ marks. marks.items ≡ paying_marks tables.now.rules.hopper (instants_of taps.now)) }
{
    let mut marks = Vec::with_capacity(alloc, taps.len())?;
    let mut last_paid: Option<Moment> = None;
    for tap in taps {
        let pays = pays(tables, &last_paid, tap);
        marks.push(pays)?;
        if pays {
            last_paid = Some(tap.stamp);
        }
    }
    Ok(marks)
}
