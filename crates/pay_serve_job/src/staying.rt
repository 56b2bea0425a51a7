//! A service that stays, over a ledger.
ghost use Rattle.std.specs.Prelude.{◌≡◌, length, IfOk, IfErr, OnOk};
ghost use Rattle.pay_journal.specs.Words.{CanFail};
ghost use Rattle.pay_serve.specs.Words.{IsOutOfPlan, terms_of};
ghost use Rattle.pay_serve_job.specs.Stays.{HasStayCause, HasStayedOver, HasStayedBy, EndsNot, IsNoPort, StaysNot, ledger_closes, with_staff};

use crate::fault::fault_of;
use crate::service::take_given;
use pay_book::Book;
use pay_close::{LedgerTill, Watch};
use pay_jobs::Fault;
use pay_journal::Keeper;
use pay_ledger::Ledger;
use pay_peers::{Aside, Control, Ports, Ready, Shared};
use pay_serve::{Given, Plan, ServeFault, listen_on};
use pay_till::Till;
use sqlite::Alter;
use std::alloc::{AllocError, Global};
use std::io;
use std::io::ErrorKind;
use std::net::{Net, TcpListener, TcpStream};
use std::sync::atomic::AtomicBool;
use std::sync::{Arc, Wait};
use std::thread::Threads;
use std::time::Clock;

/// How a service stays.
#[derive(Clone, Copy)]
pub struct Staying<'a> {
    /// The port of staff.
    pub staff: u16,
    /// How many seconds a tap may be ahead of the machine's clock: one that is more is refused by 1. Without it, none is.
    pub ahead: Option<u32>,
    /// The line with which each connection has to begin, if it has to.
    pub greeting: Option<&'a str>,
    /// What tells it to end, once it is true.
    pub stop: &'a Arc<AtomicBool>,
}

/// What a port that is not to be had comes to: want of memory, or that the service cannot listen.
fn fault_of_port(error: &io::Error) -> Fault
    ensures { IsNoPort result }
{
    if error.kind() == ErrorKind::OutOfMemory {
        Fault::from(AllocError)
    } else {
        Fault::CannotListen
    }
}

/// Listens on a port of this host alone.
fn listen_at<R: Net<Listener = TcpListener, Stream = TcpStream>>(
    rt: &R,
    port: u16,
) -> Result<TcpListener, Fault>
    ensures { IfErr result IsNoPort }
{
    match listen_on(rt, port) {
        Ok(listener) => Ok(listener),
        Err(why) => Err(fault_of(why)),
    }
}

/// A place at a listener, which is that of others too, with what its lane does beside its lines.
fn ready_at<R: Net + Clock + Copy, A: Aside>(
    rt: R,
    alloc: Global,
    listener: &TcpListener,
    shared: Shared,
    aside: &A,
) -> io::Result<Ready<R, A>> {
    let listener = listener.try_clone()?;
    let aside = aside.again()?;
    Ready::new(rt, alloc, listener, shared, aside)
}

/// The same, or why there is none.
fn place_at<R: Net + Clock + Copy, A: Aside>(
    rt: R,
    alloc: Global,
    listener: &TcpListener,
    shared: &Shared,
    aside: &A,
) -> Result<Ready<R, A>, Fault>
    ensures { IfErr result IsNoPort }
{
    let shared = shared.again()?;
    match ready_at(rt, alloc, listener, shared, aside) {
        Ok(place) => Ok(place),
        Err(error) => Err(fault_of_port(&error)),
    }
}

/// So many places at one port, one for each lane.
fn places_at<R: Net<Listener = TcpListener, Stream = TcpStream> + Clock + Copy, A: Aside>(
    rt: R,
    alloc: Global,
    port: u16,
    lanes: u8,
    shared: &Shared,
    aside: &A,
) -> Result<Vec<Ready<R, A>>, Fault>
    ensures count { IfOk result (λ places. length places.items ≡ lanes) }
    ensures fault { IfErr result IsNoPort }
{
    let listener = listen_at(&rt, port)?;
    let mut places = Vec::with_capacity(alloc, lanes as usize)?;
    for _ in 0..lanes {
        let place = place_at(rt, alloc, &listener, shared, aside)?;
        places.push_reserved(place);
    }
    Ok(places)
}

/// Serves everybody at places, and staff at a port with a till, by so many lanes as a plan has and one more.
fn stay_at<R, K, T: Till, A, B>(
    rt: R,
    alloc: Global,
    given: Given<'_, K>,
    places: Vec<Ready<R, A>>,
    control: Control<R, B>,
    stop: &AtomicBool,
    till: &mut T,
) -> Result<(), Fault>
where
    R: Threads + Wait + Clock + Copy + Send + 'static,
    K: Keeper + Send + 'static,
    A: Aside + Send + 'static,
    B: Aside,
    requires keepers { length given.keepers.items ≡ given.plan.shards }
    requires places { length places.items ≡ given.plan.lanes }
    ensures stays { IfOk result (λ _. HasStayedBy K.Keeper T.Closes (terms_of K.Keeper given.entry) (till.old, till.new)) }
    ensures fails { IfErr result (EndsNot K.Keeper T.Closes (terms_of K.Keeper given.entry) (till.old, till.new)) }
    ensures same_till { T.origin till.new ≡ T.origin till.old }
    ensures within { OnOk result (IsOutOfPlan (with_staff given.entry.plan) → ⊥) }
    ensures cause { IfErr result (HasStayCause (CanFail K.HasFailed) given.entry.plan) }
{
    let Given {
        editions,
        zone,
        plan,
        texts,
        keepers,
    } = given;
    let Some(lanes) = plan.lanes.checked_add(1) else {
        return Err(fault_of(ServeFault::Count));
    };
    let given = Given {
        editions,
        zone,
        plan: Plan { lanes, ..plan },
        texts,
        keepers,
    };
    let mut gates = Vec::new(alloc);
    match pay_serve::stay::<Book, R, K, Ready<R, A>, Control<R, B>, T>(
        rt, alloc, given, places, control, stop, till, &mut gates,
    ) {
        Ok(()) => Ok(()),
        Err(why) => Err(fault_of(why)),
    }
}

/// The same with a till over a ledger.
fn stay_into<R, K, S: Alter, C: Watch, A, B>(
    rt: R,
    alloc: Global,
    given: Given<'_, K>,
    places: Vec<Ready<R, A>>,
    control: Control<R, B>,
    stop: &AtomicBool,
    ledger: &mut Ledger<S>,
    watch: &mut C,
) -> Result<(), Fault>
where
    R: Threads + Wait + Clock + Copy + Send + 'static,
    K: Keeper + Send + 'static,
    A: Aside + Send + 'static,
    B: Aside,
    requires keepers { length given.keepers.items ≡ given.plan.shards }
    requires places { length places.items ≡ given.plan.lanes }
    ensures stays { IfOk result (λ _. HasStayedBy K.Keeper (ledger_closes S.Store) (terms_of K.Keeper given.entry) (ledger.old, ledger.new)) }
    ensures fails { IfErr result (EndsNot K.Keeper (ledger_closes S.Store) (terms_of K.Keeper given.entry) (ledger.old, ledger.new)) }
    ensures within { OnOk result (IsOutOfPlan (with_staff given.entry.plan) → ⊥) }
    ensures cause { IfErr result (HasStayCause (CanFail K.HasFailed) given.entry.plan) }
{
    let mut till = LedgerTill::new(alloc, ledger, watch);
    stay_at(rt, alloc, given, places, control, stop, &mut till)
}

/// Serves everybody and staff over a ledger that was taken.
fn stay_over<R, K, S: Alter, C: Watch, A, B>(
    rt: R,
    alloc: Global,
    given: Given<'_, K>,
    staying: Staying<'_>,
    ledger: &mut Ledger<S>,
    watch: &mut C,
    aside: A,
    staff_aside: B,
) -> Result<(), Fault>
where
    R: Net<Listener = TcpListener, Stream = TcpStream>
        + Threads
        + Wait
        + Clock
        + Copy
        + Send
        + 'static,
    K: Keeper + Send + 'static,
    A: Aside + Send + 'static,
    B: Aside,
    requires keepers { length given.keepers.items ≡ given.plan.shards }
    ensures stays { IfOk result (λ _. HasStayedBy K.Keeper (ledger_closes S.Store) (terms_of K.Keeper given.entry) (ledger.old, ledger.new)) }
    ensures fails { IfErr result (EndsNot K.Keeper (ledger_closes S.Store) (terms_of K.Keeper given.entry) (ledger.old, ledger.new)) }
    ensures within { OnOk result (IsOutOfPlan (with_staff given.entry.plan) → ⊥) }
    ensures cause { IfErr result (HasStayCause (CanFail K.HasFailed) given.entry.plan) }
{
    let ports = Ports {
        everybody: given.plan.port,
        staff: staying.staff,
    };
    let shared = Shared::new(alloc, staying.stop, staying.ahead, staying.greeting)?;
    let places = places_at(
        rt,
        alloc,
        ports.everybody,
        given.plan.lanes,
        &shared,
        &aside,
    )?;
    let listener = listen_at(&rt, ports.staff)?;
    let control = match Control::new(rt, alloc, listener, ports, shared, staff_aside) {
        Ok(control) => control,
        Err(error) => return Err(fault_of_port(&error)),
    };
    stay_into(
        rt,
        alloc,
        given,
        places,
        control,
        staying.stop,
        ledger,
        watch,
    )
}

/// Serves everybody at one port, by so many lanes as a plan has, and staff at another, by a fare file and the clock of a zone, until staff
/// ask for the service to stop, or it is told to. Each lane has what it does beside its lines, and that of staff its own. Days are closed into a ledger, if the watch lets them. The lines of journals, which are
/// given by their numbers from 0 on, are taken again before the first connection; and each shard has a keeper of what it newly accepts. A
/// ledger that does not agree with what the journals give back is not [taken](pay_jobs::take_with), and then no port is.
pub fn stay<R, K, S: Alter, C: Watch, A, B>(
    rt: R,
    alloc: Global,
    given: Given<'_, K>,
    staying: Staying<'_>,
    ledger: &mut Ledger<S>,
    watch: &mut C,
    aside: A,
    staff_aside: B,
) -> Result<(), Fault>
where
    R: Net<Listener = TcpListener, Stream = TcpStream>
        + Threads
        + Wait
        + Clock
        + Copy
        + Send
        + 'static,
    K: Keeper + Send + 'static,
    A: Aside + Send + 'static,
    B: Aside,
    requires keepers { length given.keepers.items ≡ given.plan.shards }
    ensures stays { IfOk result (λ _. HasStayedOver K.Keeper S.Store (terms_of K.Keeper given.entry) ledger.old ledger.new) }
    ensures fails { IfErr result (StaysNot K.Keeper S.Store (terms_of K.Keeper given.entry) ledger.old ledger.new) }
    ensures within { OnOk result (IsOutOfPlan (with_staff given.entry.plan) → ⊥) }
    ensures cause { IfErr result (HasStayCause (CanFail K.HasFailed) given.entry.plan) }
{
    take_given(alloc, &given.editions, &given.zone, given.texts, ledger)?;
    watch.begins();
    stay_over(rt, alloc, given, staying, ledger, watch, aside, staff_aside)
}
