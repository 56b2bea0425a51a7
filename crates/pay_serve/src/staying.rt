//! A service that stays for as long as one lane does.
ghost use Rattle.std.specs.Prelude.{◌≡◌, ◌+◌, [], length, IfErr, OnOk};
ghost use Rattle.pay_journal.specs.Words.{CanFail};
ghost use Rattle.pay_serve.specs.Causes.{IsOutOfPlan, IsStayCause};
ghost use Rattle.pay_serve.specs.Closes.{terms_of};
ghost use Rattle.pay_serve.specs.KeepingGates.{HoldsPassed};
ghost use Rattle.pay_serve.specs.Stays.{IsStayed};

use crate::closing::end;
use crate::fault::ServeFault;
use crate::gate::KeepingGate;
use crate::gates::is_one_stuck;
use crate::given::Given;
use crate::journals::take_through;
use crate::lanes::begin_lanes;
use crate::place::{Place, StaffPlace};
use crate::service::open_office;
use pay_journal::Keeper;
use pay_rules::Fares;
use pay_till::Till;
use std::alloc::Global;
use std::sync::Wait;
use std::sync::atomic::{AtomicBool, Ordering};
use std::thread::Threads;

/// Takes all lines of journals again over one lane; then serves whoever comes to the places of a plan's lanes, each lane's in a thread of
/// its own, and, over one lane more, staff at another place here, whose days a till closes while the others send. Once that one ends, the
/// others are told to stop, and the office ends. The line of what a shard newly accepts is kept by its keeper before any lane can have the
/// answer. Where a line of a journal is not accepted, or a lane gets no thread, nobody is served, no line is kept, and no day is closed. The
/// gates come back in `gates`, which was empty, in the order of the keepers; or none, where no office began.
pub fn stay<F, R, K, P, C, T: Till>(
    rt: R,
    alloc: Global,
    given: Given<'_, K>,
    places: Vec<P>,
    staff: C,
    stop: &AtomicBool,
    till: &mut T,
    gates: &mut Vec<KeepingGate<K>>,
) -> Result<(), ServeFault>
where
    F: Fares + Send + 'static,
    R: Threads + Wait + Copy + Send + 'static,
    K: Keeper + Send + 'static,
    P: Place + Send + 'static,
    C: StaffPlace,
    requires keepers { length given.keepers.items ≡ given.plan.shards }
    requires places { length places.items + 1 ≡ given.plan.lanes }
    requires empty { gates.old.items ≡ [] }
    ensures stayed { IsStayed (HoldsPassed K.holds K.HasFailed K.IsSettled) T.Closes P.asks (terms_of K.Keeper given.entry) (till.old, till.new) (gates.new.items, result) }
    ensures same_till { T.origin till.new ≡ T.origin till.old }
    ensures within { OnOk result (IsOutOfPlan given.entry.plan → ⊥) }
    ensures cause { IfErr result (IsStayCause (CanFail K.HasFailed) given.entry.plan) }
{
    pay_lanes::laws::still_together();
    pay_lanes::laws::same_lanes();
    pay_lanes::laws::same_workers();
    crate::laws::passed_are_kept::<K>();
    crate::laws::closes_are_one();
    let Given {
        editions,
        zone,
        plan,
        texts,
        keepers,
    } = given;
    let (office, first, mut lanes) = open_office::<F, R, K>(rt, alloc, editions, &plan, keepers)?;
    let (taken, last) = take_through(rt, alloc, texts, &zone, first);
    match taken {
        Ok(()) => {}
        Err(fault) => {
            *gates = end(&rt, office, lanes, last);
            return Err(fault);
        }
    }
    let Some(lane) = lanes.pop() else {
        unreachable!()
    };
    match begin_lanes(rt, alloc, zone, places, lanes) {
        Err((fault, back)) => {
            let mut back = back;
            back.push_reserved(lane);
            *gates = end(&rt, office, back, last);
            Err(ServeFault::from(fault))
        }
        Ok(served) => {
            let lane = staff.serve(rt, alloc, &zone, lane, till);
            stop.store(true, Ordering::SeqCst);
            let mut back = served.end(&rt);
            back.push_reserved(lane);
            *gates = end(&rt, office, back, last);
            if is_one_stuck(gates) {
                return Err(ServeFault::Journal);
            }
            Ok(())
        }
    }
}
