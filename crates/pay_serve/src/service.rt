//! The whole service.
ghost use Rattle.std.specs.Prelude.{◌≡◌, ◌≤◌, ◌<◌, [], true, All, length, map as each, vec_capacity, IfOk, IfErr, OnOk};
ghost use Rattle.std.specs.Arc.{arc_value};
ghost use Rattle.pay_day.specs.declared.limits.TheConstants.{FIRST_DAY, LAST_DAY};
ghost use Rattle.pay_wire.specs.Words.{IsFlushed};
ghost use Rattle.pay_journal.specs.Words.{CanFail};
ghost use Rattle.pay_lanes.specs.Words.{IsNewLane, began_of};
ghost use Rattle.pay_serve.specs.KeepingGates.{HoldsPassed};
ghost use Rattle.pay_serve.specs.declared.limits.TheConstants.{SPARED_LANE};
ghost use Rattle.pay_serve.specs.Causes.{IsOutOfPlan, IsUnopened, IsServeCause};
ghost use Rattle.pay_serve.specs.Closes.{IsServed, IsServedWith, IsStopped, terms_of};
ghost use Rattle.pay_serve.specs.LeftGates.{IsLeftIn};
ghost use Rattle.pay_serve.specs.Journals.{is_one_stuck, told_with};
ghost use Rattle.pay_serve.specs.Lanes.{HasShards, AreAllWith};
ghost use Rattle.pay_serve.specs.Machines.{IsNewOffice};

use crate::closing::{close_day, end};
use crate::connection::places;
use crate::fault::ServeFault;
use crate::gate::KeepingGate;
use crate::gates::{all_gates, is_one_stuck};
use crate::given::Given;
use crate::journals::take_through;
use crate::lanes::serve_lanes;
use crate::plan::Plan;
use pay_journal::Keeper;
use pay_office::{Lane, Office, start};
use pay_rules::Fares;
use pay_tables::Editions;
use pay_till::Till;
use pay_wire::KnownWriter;
use std::alloc::Global;
use std::net::TcpListener;
use std::sync::{Arc, Wait};
use std::thread::Threads;

/// Begins the shards of a plan, each with a keeper, and opens its lanes to them and, before these, the one that is spared.
pub(crate) fn open_office<F, R, K>(
    rt: R,
    alloc: Global,
    editions: Arc<Editions>,
    plan: &Plan,
    keepers: Vec<K>,
) -> Result<(Office<F, KeepingGate<K>>, Lane, Vec<Lane>), ServeFault>
where
    F: Fares + Send + 'static,
    R: Threads + Wait + Copy + Send + 'static,
    K: Keeper + Send + 'static,
    requires { length keepers.items ≡ plan.now.shards }
    ensures count { IfOk result (λ opened. length opened.2.items ≡ plan.now.lanes) }
    ensures room { IfOk result (λ opened. length opened.2.items < vec_capacity opened.2) }
    ensures shards { IfOk result (λ opened. HasShards opened.1 × All HasShards opened.2.items) }
    ensures spared { IfOk result (λ opened. (opened.1.number ≡ SPARED_LANE) × IsNewLane (length opened.0) opened.1) }
    ensures others { IfOk result (λ opened. All (IsNewLane (length opened.0)) opened.2.items) }
    ensures all { IfOk result (λ opened. AreAllWith opened.0 opened.2.items opened.1) }
    ensures new { IfOk result (λ opened. IsNewOffice (arc_value editions) opened.0) }
    ensures began { IfOk result (λ opened. began_of opened.0 ≡ each K.holds keepers.items) }
    ensures within { OnOk result (IsOutOfPlan plan.now → ⊥) }
    ensures cause { IfErr result (IsUnopened plan.now) }
{
    let gates = all_gates(alloc, keepers)?;
    let lanes = plan.lanes.saturating_add(1);
    let (office, mut lanes) = start(rt, alloc, editions, plan.shards, lanes, gates)?;
    let spared = lanes.remove(0);
    Ok((office, spared, lanes))
}

/// What is told of a service whose gates are back.
fn told_with<K: Keeper>(
    told: Result<bool, ServeFault>,
    gates: &[KeepingGate<K>],
) -> Result<bool, ServeFault>
    ensures told { result ≡ told_with (is_one_stuck gates.now) told }
    ensures cause { is_one_stuck gates.now ≡ true → CanFail K.HasFailed }
{
    if is_one_stuck(gates) {
        return Err(ServeFault::Journal);
    }
    told
}

/// Takes all lines of journals again over one lane, and then serves the connections of a plan's lanes, each lane's at the listener
/// beside it and in a thread of its own, one after another, until all have ended. The line of what a shard newly accepts is kept by its
/// keeper before any lane can have the answer. Then it closes the plan's day by a till over the first lane, and writes what came of
/// it: what one machine says that was asked what all lanes asked. Whether the day was closed; if not, its refusal is written. Where a
/// line of a journal is not accepted, or a lane gets no thread, no connection is served, no line is kept, and the day is not closed.
/// The gates come back in `gates`, which was empty, in the order of the keepers; or none, where no office began.
pub fn serve_gated<F, R, K, T: Till, W: KnownWriter>(
    rt: R,
    alloc: Global,
    given: Given<'_, K>,
    listeners: Vec<TcpListener>,
    gates: &mut Vec<KeepingGate<K>>,
    till: &mut T,
    writer: &mut W,
) -> Result<bool, ServeFault>
where
    F: Fares + Send + 'static,
    R: Threads + Wait + Copy + Send + 'static,
    K: Keeper + Send + 'static,
    requires keepers { length given.keepers.items ≡ given.plan.shards }
    requires day { (FIRST_DAY ≤ given.plan.close) × (given.plan.close ≤ LAST_DAY) }
    requires listeners { length listeners.items ≡ given.plan.lanes }
    requires empty { gates.old.items ≡ [] }
    ensures served { IsServedWith (HoldsPassed K.holds K.HasFailed K.IsSettled) (terms_of K.Keeper given.entry) (λ of put answer. T.Closes till.old given.entry.plan.close of put answer till.new)
        (W.contents writer.old, W.contents writer.new) (gates.new.items, result) ((till.new ≡ till.old) × (writer.new ≡ writer.old)) }
    ensures stopped { IfErr result (IsStopped (terms_of K.Keeper given.entry)) }
    ensures flushed { OnOk result (IsFlushed W.MayAnswer writer.new) }
    ensures within { OnOk result (IsOutOfPlan given.entry.plan → ⊥) }
    ensures cause { IfErr result (λ fault. IsServeCause W.MayAnswer (CanFail K.HasFailed) given.entry.plan fault writer.new) }
    ensures same_till { T.origin till.new ≡ T.origin till.old }
    ensures gates { IsLeftIn (each K.holds given.entry.keepers.items) gates.new.items result }
{
    pay_lanes::laws::still_together();
    pay_lanes::laws::same_lanes();
    pay_lanes::laws::same_workers();
    crate::laws::passed_are_kept::<K>();
    let Given {
        editions,
        zone,
        plan,
        texts,
        keepers,
    } = given;
    let places = places(alloc, plan.sessions, listeners)?;
    let (office, first, lanes) = open_office::<F, R, K>(rt, alloc, editions, &plan, keepers)?;
    let (taken, last) = take_through(rt, alloc, texts, &zone, first);
    match taken {
        Ok(()) => {}
        Err(fault) => {
            *gates = end(&rt, office, lanes, last);
            return Err(fault);
        }
    }
    let (refused, back) = serve_lanes(rt, alloc, zone, places, lanes);
    if let Some(fault) = refused {
        *gates = end(&rt, office, back, last);
        return Err(ServeFault::from(fault));
    }
    let (closed, left) = close_day(rt, alloc, office, back, last, till, plan.close, writer);
    let told = told_with(closed, left.as_slice());
    *gates = left;
    told
}

/// The same, for whoever needs the gates no more.
pub fn serve<F, R, K, T: Till, W: KnownWriter>(
    rt: R,
    alloc: Global,
    given: Given<'_, K>,
    listeners: Vec<TcpListener>,
    till: &mut T,
    writer: &mut W,
) -> Result<bool, ServeFault>
where
    F: Fares + Send + 'static,
    R: Threads + Wait + Copy + Send + 'static,
    K: Keeper + Send + 'static,
    requires keepers { length given.keepers.items ≡ given.plan.shards }
    requires day { (FIRST_DAY ≤ given.plan.close) × (given.plan.close ≤ LAST_DAY) }
    requires listeners { length listeners.items ≡ given.plan.lanes }
    ensures served { IsServed (HoldsPassed K.holds K.HasFailed K.IsSettled) (terms_of K.Keeper given.entry) (λ of put answer. T.Closes till.old given.entry.plan.close of put answer till.new)
        (W.contents writer.old, W.contents writer.new) result ((till.new ≡ till.old) × (writer.new ≡ writer.old)) }
    ensures stopped { IfErr result (IsStopped (terms_of K.Keeper given.entry)) }
    ensures flushed { OnOk result (IsFlushed W.MayAnswer writer.new) }
    ensures within { OnOk result (IsOutOfPlan given.entry.plan → ⊥) }
    ensures cause { IfErr result (λ fault. IsServeCause W.MayAnswer (CanFail K.HasFailed) given.entry.plan fault writer.new) }
    ensures same_till { T.origin till.new ≡ T.origin till.old }
{
    let mut gates = Vec::new(alloc);
    serve_gated::<F, R, K, T, W>(rt, alloc, given, listeners, &mut gates, till, writer)
}
