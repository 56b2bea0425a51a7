//! The gates of the shards of a service.
ghost use Rattle.std.specs.Prelude.{◌≡◌, false, [], All, length, map as each, IfOk, IsTrue};
ghost use Rattle.pay_journal.specs.Words.{CanFail};
ghost use Rattle.pay_serve.specs.KeepingGates.{HoldsPassed};
ghost use Rattle.pay_serve.specs.Journals.{is_one_stuck};

use crate::gate::KeepingGate;
use pay_journal::Keeper;
use std::alloc::{AllocError, Global};

/// A gate for each keeper, in order.
pub fn all_gates<K: Keeper>(
    alloc: Global,
    keepers: Vec<K>,
) -> Result<Vec<KeepingGate<K>>, AllocError>
    ensures count { IfOk result (λ gates. length gates.items ≡ length keepers.items) }
    ensures none { IfOk result (λ gates. All (λ gate. HoldsPassed K.holds K.HasFailed K.IsSettled gate [] false) gates.items) }
    ensures first { IfOk result (λ gates. each (λ gate. gate.held_first) gates.items ≡ each K.holds keepers.items) }
{
    let mut gates = Vec::with_capacity(alloc, keepers.len())?;
    for keeper in keepers {
        gates.push_reserved(KeepingGate::begin(keeper));
    }
    Ok(gates)
}

/// Whether one of these could not keep something.
pub fn is_one_stuck<K: Keeper>(gates: &[KeepingGate<K>]) -> bool
    ensures value { result ≡ is_one_stuck gates.now }
    ensures cause { IsTrue result → CanFail K.HasFailed }
{
    for place in 0..gates.len() {
        if gates[place].is_stuck() {
            return true;
        }
    }
    false
}
