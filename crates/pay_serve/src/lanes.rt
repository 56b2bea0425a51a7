//! The lanes, each in a thread of its own.
ghost use Rattle.std.specs.Prelude.{◌≡◌, ◌≤◌, ◌<◌, List, [], None, true, All, IfOk, IfErr, IfSome, length, vec_capacity};
ghost use Rattle.std.specs.List.{AllZip};
ghost use Rattle.pay_serve.specs.Begins.{HasServed};
ghost use Rattle.pay_serve.specs.Lanes.{HasShards, HasGoneOn};
ghost use Rattle.jiff.specs.declared.tz.timezone.TimeZone.{TimeZone};
ghost use Rattle.pay_lanes.specs.Words.{LaneParts};
ghost use Rattle.pay_session.specs.declared.port.Role.{Role};
ghost use Rattle.pay_serve.specs.TriedLanes.{AreServedAt, room_of, IsTried, IsToldOf, GivesBack, first_of, first_refused, refused_of};

use crate::begins::{Begins, LaneFault};
use crate::place::Place;
use crate::served_lanes::ServedLanes;
use crate::threads::{Begun, GoesOn, Going, Serving};
use jiff::tz::TimeZone;
use pay_office::Lane;
use std::alloc::{AllocError, Global};
use std::snapshot::Snapshot;
use std::sync::Wait;
use std::thread;
use std::thread::Threads;

/// A lane for which a thread was asked: the thread is there, and was not told yet whether the lane begins; or the lane is still here.
#[derive(Drop)]
pub struct Tried {
    lane: Result<Begun, (LaneFault, Lane)>,
}

/// A lane for which a thread was asked, and which was told whether the lane begins; or the lane is still here.
#[derive(Drop)]
pub struct Informed {
    lane: Result<Going, Lane>,
}

/// What the thread of a lane is given beside the lane.
#[derive(Drop)]
struct Task<P: Place> {
    alloc: Global,
    zone: TimeZone<'static>,
    place: P,
}

/// Waits until it is told whether the lane begins, and serves whoever comes to a place over it if so.
fn serve_place<R: Wait + Copy, P: Place>(rt: R, task: Task<P>, serving: Serving) -> Serving
    requires { HasShards serving.lane }
    ensures { HasServed (task.zone, P.asks) (serving.lane, serving.awaits) (result.lane, result.awaits) }
{
    pay_lanes::laws::same_lanes();
    let Task { alloc, zone, place } = task;
    let Serving { lane, mut awaits } = serving;
    if !awaits.wait(&rt) {
        return Serving { lane, awaits };
    }
    let lane = place.serve(rt, alloc, &zone, lane);
    Serving { lane, awaits }
}

/// Asks for a thread for a lane, which waits until it is told whether the lane begins.
fn begin<R, P>(rt: R, alloc: Global, zone: TimeZone<'static>, place: P, lane: Lane) -> Tried
where
    R: Threads + Wait + Copy + Send + 'static,
    P: Place + Send + 'static,
    requires { HasShards lane }
    ensures { IsTried (zone.entry, P.asks) lane result }
{
    let Ok((begins, awaits)) = Begins::open(alloc) else {
        return Tried {
            lane: Err((LaneFault::Memory, lane)),
        };
    };
    let task = Task { alloc, zone, place };
    let serving = Serving { lane, awaits };
    let goes_on = GoesOn {
        began: Snapshot::of(&serving),
        zone,
        role: P::role(),
    };
    match thread::spawn_with(&rt, goes_on, move || serve_place(rt, task, serving)) {
        Ok(thread) => Tried {
            lane: Ok(Begun { thread, begins }),
        },
        Err(refused) => {
            let told = begins.tell(&rt, false);
            let serves = refused.value;
            let Serving { lane, awaits } = serves();
            told.compare(awaits);
            Tried {
                lane: Err((LaneFault::NoThread, lane)),
            }
        }
    }
}

impl Tried {
    /// The first of a refusal before, and of that of this one.
    fn or_refused(&self, before: Option<LaneFault>) -> Option<LaneFault>
        ensures { result ≡ first_of before (refused_of self.now.lane) }
    {
        match (before, &self.lane) {
            (None, Err((fault, _))) => Some(*fault),
            _ => before,
        }
    }

    /// Tells the thread whether the lane begins.
    fn tell<R: Wait>(self, rt: &R, begins: bool) -> Informed
        ensures { IsToldOf begins self result }
    {
        match self.lane {
            Ok(
                Begun {
                    thread,
                    begins: line,
                },
            ) => {
                let told = line.tell(rt, begins);
                Informed {
                    lane: Ok(Going { thread, told }),
                }
            }
            Err((_, here)) => Informed { lane: Err(here) },
        }
    }
}

impl Informed {
    /// The lane, once its thread has ended.
    fn end<R: Threads>(self, rt: &R) -> Lane
        ensures { GivesBack self result }
    {
        pay_lanes::laws::same_lanes();
        match self.lane {
            Ok(Going { thread, told }) => {
                let Serving { lane, awaits } = thread.join(rt);
                told.compare(awaits);
                lane
            }
            Err(here) => here,
        }
    }
}

/// Asks for a thread for each lane, with the place beside it, and puts the lanes into a list that has room for them. Why the first
/// that was refused was so.
fn begin_all<R, P>(
    rt: R,
    alloc: Global,
    zone: TimeZone<'static>,
    places: Vec<P>,
    lanes: Vec<Lane>,
    tried: &mut Vec<Tried>,
) -> Option<LaneFault>
where
    R: Threads + Wait + Copy + Send + 'static,
    P: Place + Send + 'static,
    requires count { length places.items ≡ length lanes.items }
    requires shards { All HasShards lanes.items }
    requires room { length lanes.items ≤ vec_capacity tried.old }
    requires empty { tried.old.items ≡ [] }
    ensures tried { AllZip (IsTried (zone.entry, P.asks)) lanes.items tried.new.items }
    ensures refused { result ≡ first_refused tried.new.items }
{
    let mut refused = None;
    for (place, lane) in places.into_iter().zip(lanes) {
        let one = begin(rt, alloc, zone, place, lane);
        refused = one.or_refused(refused);
        tried.push_reserved(one);
    }
    refused
}

/// Tells the threads of all lanes whether these begin, and puts them into a list that has room for them. They begin only where each
/// has a thread.
fn tell_all<R: Wait>(rt: &R, tried: Vec<Tried>, begins: bool, informed: &mut Vec<Informed>)
    requires threads { begins ≡ true → first_refused tried.items ≡ None }
    requires room { length tried.items ≤ vec_capacity informed.old }
    requires empty { informed.old.items ≡ [] }
    ensures { AllZip (IsToldOf begins) tried.items informed.new.items }
{
    for one in tried {
        informed.push_reserved(one.tell(rt, begins));
    }
}

/// Waits until the threads of all lanes have ended, and puts the lanes into a list that has room for them.
fn end_all<R: Threads>(rt: &R, informed: Vec<Informed>, lanes: &mut Vec<Lane>)
    requires room { length informed.items ≤ vec_capacity lanes.old }
    requires empty { lanes.old.items ≡ [] }
    ensures lanes { AllZip GivesBack informed.items lanes.new.items }
    ensures room { vec_capacity lanes.new ≡ vec_capacity lanes.old }
{
    for one in informed {
        lanes.push_reserved(one.end(rt));
    }
}

/// Lists that are empty, and have room.
#[derive(Drop)]
struct Lists {
    tried: Vec<Tried>,
    informed: Vec<Informed>,
    back: Vec<Lane>,
}

/// Room for so many lanes, and for so many that come back.
fn room(alloc: Global, lanes: usize, back: usize) -> Result<Lists, AllocError>
    ensures tried { IfOk result (λ room. (lanes ≤ vec_capacity room.tried) × (room.tried.items ≡ [])) }
    ensures informed { IfOk result (λ room. (lanes ≤ vec_capacity room.informed) × (room.informed.items ≡ [])) }
    ensures back { IfOk result (λ room. (back ≤ vec_capacity room.back) × (room.back.items ≡ [])) }
{
    let tried = Vec::with_capacity(alloc, lanes)?;
    let informed = Vec::with_capacity(alloc, lanes)?;
    let back = Vec::with_capacity(alloc, back)?;
    Ok(Lists {
        tried,
        informed,
        back,
    })
}

/// Begins to serve whoever comes to the places of lanes, each lane's at the place beside it and in a thread of its own. Where one gets no
/// thread, none begins: they come back as they were, with why the first was refused one.
pub fn begin_lanes<R, P>(
    rt: R,
    alloc: Global,
    zone: TimeZone<'static>,
    places: Vec<P>,
    lanes: Vec<Lane>,
) -> Result<ServedLanes, (LaneFault, Vec<Lane>)>
where
    R: Threads + Wait + Copy + Send + 'static,
    P: Place + Send + 'static,
    requires count { length places.items ≡ length lanes.items }
    requires shards { All HasShards lanes.items }
    requires room { length lanes.items < vec_capacity lanes }
    ensures begun { IfOk result (AreServedAt (zone.entry, P.asks) lanes.items) }
    ensures refused { IfErr result (λ back. back.1.items ≡ lanes.items) }
    ensures room { IfErr result (λ back. length back.1.items < vec_capacity back.1) }
    ensures no_less { IfOk result (λ served. vec_capacity lanes ≤ room_of served) }
    ensures no_less_back { IfErr result (λ back. vec_capacity lanes ≤ vec_capacity back.1) }
{
    let Ok(made) = room(alloc, lanes.len(), lanes.capacity()) else {
        return Err((LaneFault::Memory, lanes));
    };
    let Lists {
        mut tried,
        mut informed,
        mut back,
    } = made;
    let refused = begin_all(rt, alloc, zone, places, lanes, &mut tried);
    tell_all(&rt, tried, refused.is_none(), &mut informed);
    match refused {
        None => Ok(ServedLanes { informed, back }),
        Some(fault) => {
            end_all(&rt, informed, &mut back);
            Err((fault, back))
        }
    }
}

impl ServedLanes {
    /// Waits until all have ended. The lanes come back in their order, each the same end of the same queues, and have sent nothing but what
    /// lines ask for, of whoever may ask there.
    pub fn end<R: Threads>(self, rt: &R) -> Vec<Lane>
        ensures served { (port : TimeZone × Role) (lanes : List LaneParts) → AreServedAt port lanes self → AllZip (HasGoneOn port) lanes result.items }
        ensures room { length result.items < vec_capacity result }
        ensures no_less { vec_capacity result ≡ room_of self }
    {
        let ServedLanes { informed, mut back } = self;
        end_all(rt, informed, &mut back);
        back
    }
}

/// Serves whoever comes to the places of lanes, each lane's at the place beside it and in a thread of its own, until all have ended. The
/// lanes come back in their order, each the same end of the same queues, and have sent nothing but what lines ask for, of whoever may ask
/// there. Where one gets no thread, none begins: they come back as they were, with why the first was refused one.
pub fn serve_lanes<R, P>(
    rt: R,
    alloc: Global,
    zone: TimeZone<'static>,
    places: Vec<P>,
    lanes: Vec<Lane>,
) -> (Option<LaneFault>, Vec<Lane>)
where
    R: Threads + Wait + Copy + Send + 'static,
    P: Place + Send + 'static,
    requires count { length places.items ≡ length lanes.items }
    requires shards { All HasShards lanes.items }
    requires room { length lanes.items < vec_capacity lanes }
    ensures served { AllZip (HasGoneOn (zone.entry, P.asks)) lanes.items result.1.items }
    ensures unserved { IfSome result.0 (λ _. result.1.items ≡ lanes.items) }
    ensures room { length result.1.items < vec_capacity result.1 }
{
    pay_lanes::laws::same_lanes();
    match begin_lanes(rt, alloc, zone, places, lanes) {
        Ok(served) => (None, served.end(&rt)),
        Err((fault, back)) => (Some(fault), back),
    }
}
