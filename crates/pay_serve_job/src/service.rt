//! The job `serve`, over a ledger, and without one.
ghost use Rattle.std.specs.Prelude.{◌≡◌, length, map, vec_items, IfErr, OnOk};
ghost use Rattle.std.specs.Arc.{arc_value};
ghost use Rattle.sqlite.specs.Held.{state};
ghost use Rattle.pay_wire.specs.Words.{IsFlushed};
ghost use Rattle.pay_day.specs.Words.{IsDay};
ghost use Rattle.pay_close.specs.Closes.{Closes};
ghost use Rattle.pay_journal.specs.Words.{CanFail};
ghost use Rattle.pay_serve.specs.Words.{HoldsPassed};
ghost use Rattle.pay_serve.specs.Words.{IsOutOfPlan, IsServeCause, IsServed, IsStopped, terms_of};
ghost use Rattle.pay_serve_job.specs.Service.{IsTakenBy, IsNotTakenBy, FailsAlone, FailsToServe, HasServiceCause, IsServedAloneOrNot, IsServedOrNot};

use crate::fault::fault_of;
use jiff::tz::TimeZone;
use pay_book::Book;
use pay_close::{LedgerTill, Watch};
use pay_jobs::{Fault, replayed_texts, take_with};
use pay_journal::Keeper;
use pay_ledger::Ledger;
use pay_log::{Level, Log};
use pay_serve::{Given, Plan, ServeFault, listen};
use pay_tables::Editions;
use pay_till::NoTill;
use pay_wire::KnownWriter;
use sqlite::Alter;
use std::alloc::Global;
use std::net::{Net, TcpListener, TcpStream};
use std::sync::{Arc, Wait};
use std::thread::Threads;

/// Says on standard error where it listens.
fn tell_ports<R: Log>(rt: &R, plan: &Plan) {
    let first = plan.port;
    let last = first.saturating_add(u16::from(plan.lanes.saturating_sub(1)));
    let level = Level::Information;
    if first == last {
        rt.say(
            level,
            format_args!("farebox: listening on 127.0.0.1:{first}"),
        );
    } else {
        rt.say(
            level,
            format_args!("farebox: listening on 127.0.0.1:{first} to {last}"),
        );
    }
}

/// Takes a ledger with the accounts that the journals of a service give back. These are let go again before the service begins.
pub fn take_given<S: Alter>(
    alloc: Global,
    editions: &Arc<Editions>,
    zone: &TimeZone<'_>,
    texts: &[Vec<u8>],
    ledger: &mut Ledger<S>,
) -> Result<(), Fault>
    ensures taken { OnOk result (IsTakenBy S.Store (arc_value editions.now) zone.now (map vec_items texts.now) ledger.old ledger.new) }
    ensures refused { IfErr result (IsNotTakenBy S.Store (arc_value editions.now) zone.now (map vec_items texts.now) ledger.old ledger.new) }
{
    let editions = Arc::clone(editions)?;
    let replayed = replayed_texts(alloc, editions, zone, texts, 0)?;
    take_with(alloc, ledger, replayed.0.shard())
}

/// Serves the connections of what is given, and closes its day into a ledger that was taken.
fn serve_into<R, K, S: Alter, C: Watch, W: KnownWriter>(
    rt: R,
    alloc: Global,
    given: Given<'_, K>,
    listeners: Vec<TcpListener>,
    ledger: &mut Ledger<S>,
    watch: &mut C,
    writer: &mut W,
) -> Result<bool, ServeFault>
where
    R: Threads + Wait + Copy + Send + 'static,
    K: Keeper + Send + 'static,
    requires day { IsDay given.plan.close }
    requires keepers { length given.keepers.items ≡ given.plan.shards }
    requires listeners { length listeners.items ≡ given.plan.lanes }
    ensures served { IsServed (HoldsPassed K.holds K.HasFailed K.IsSettled) (terms_of K.Keeper given.entry) (λ of put answer. Closes (state S.Store ledger.old) (state S.Store ledger.new) of put answer)
        (W.contents writer.old, W.contents writer.new) result ((ledger.new ≡ ledger.old) × (writer.new ≡ writer.old)) }
    ensures stopped { IfErr result (IsStopped (terms_of K.Keeper given.entry)) }
    ensures flushed { OnOk result (IsFlushed W.MayAnswer writer.new) }
    ensures within { OnOk result (IsOutOfPlan given.entry.plan → ⊥) }
    ensures cause { IfErr result (λ fault. IsServeCause W.MayAnswer (CanFail K.HasFailed) given.entry.plan fault writer.new) }
{
    let mut till = LedgerTill::new(alloc, ledger, watch);
    pay_serve::serve::<Book, R, K, LedgerTill<'_, S, C>, W>(
        rt, alloc, given, listeners, &mut till, writer,
    )
}

/// Serves the connections of a plan by a fare file and the clock of a zone, and closes the plan's day into a ledger when all have ended,
/// if the watch lets it.
/// Whether the day was closed; if not, its refusal is written. The lines of journals, which are given by their numbers from 0 on, are
/// taken again before the first connection; and each shard has a keeper of what it newly accepts. A ledger that does not agree with what
/// the journals give back is not [taken](take_with), and then no port is.
pub fn serve<R, K, S: Alter, C: Watch, W: KnownWriter>(
    rt: R,
    alloc: Global,
    given: Given<'_, K>,
    ledger: &mut Ledger<S>,
    watch: &mut C,
    writer: &mut W,
) -> Result<bool, Fault>
where
    R: Net<Listener = TcpListener, Stream = TcpStream>
        + Threads
        + Wait
        + Log
        + Copy
        + Send
        + 'static,
    K: Keeper + Send + 'static,
    requires day { IsDay given.plan.close }
    requires keepers { length given.keepers.items ≡ given.plan.shards }
    ensures served { IsServedOrNot K.Keeper S.Store (terms_of K.Keeper given.entry) (ledger.old, W.contents writer.old) (ledger.new, W.contents writer.new) result }
    ensures fails { IfErr result (FailsToServe S.Store (terms_of K.Keeper given.entry) ledger.old) }
    ensures flushed { OnOk result (IsFlushed W.MayAnswer writer.new) }
    ensures within { OnOk result (IsOutOfPlan given.entry.plan → ⊥) }
    ensures cause { IfErr result (λ fault. HasServiceCause W.MayAnswer (CanFail K.HasFailed) given.entry.plan fault writer.new) }
{
    take_given(alloc, &given.editions, &given.zone, given.texts, ledger)?;
    watch.begins();
    let listeners = match listen(&rt, alloc, &given.plan) {
        Ok(listeners) => listeners,
        Err(why) => return Err(fault_of(why)),
    };
    tell_ports(&rt, &given.plan);
    match serve_into(rt, alloc, given, listeners, ledger, watch, writer) {
        Ok(closed) => Ok(closed),
        Err(why) => Err(fault_of(why)),
    }
}

/// The same without a ledger: the day is not closed, and its refusal `NO 34 NotHere` is written.
pub fn serve_without_ledger<R, K, W: KnownWriter>(
    rt: R,
    alloc: Global,
    given: Given<'_, K>,
    writer: &mut W,
) -> Result<bool, Fault>
where
    R: Net<Listener = TcpListener, Stream = TcpStream>
        + Threads
        + Wait
        + Log
        + Copy
        + Send
        + 'static,
    K: Keeper + Send + 'static,
    requires day { IsDay given.plan.close }
    requires keepers { length given.keepers.items ≡ given.plan.shards }
    ensures served { IsServedAloneOrNot K.Keeper (terms_of K.Keeper given.entry) (W.contents writer.old) (W.contents writer.new) result }
    ensures fails { IfErr result (FailsAlone (terms_of K.Keeper given.entry)) }
    ensures flushed { OnOk result (IsFlushed W.MayAnswer writer.new) }
    ensures within { OnOk result (IsOutOfPlan given.entry.plan → ⊥) }
    ensures cause { IfErr result (λ fault. HasServiceCause W.MayAnswer (CanFail K.HasFailed) given.entry.plan fault writer.new) }
{
    let listeners = match listen(&rt, alloc, &given.plan) {
        Ok(listeners) => listeners,
        Err(why) => return Err(fault_of(why)),
    };
    tell_ports(&rt, &given.plan);
    match pay_serve::serve::<Book, R, K, NoTill, W>(
        rt,
        alloc,
        given,
        listeners,
        &mut NoTill,
        writer,
    ) {
        Ok(closed) => Ok(closed),
        Err(why) => Err(fault_of(why)),
    }
}
