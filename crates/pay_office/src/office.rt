//! Begins the threads of all shards, and ends them.
ghost use Rattle.std.specs.Prelude.{◌≡◌, ◌↔◌, ◌≢◌, false, All, length, map as each, vec_items, Err, IfOk, IfErr, OnOk, IsPermutation, ◌≤◌, [], vec_capacity};
ghost use Rattle.std.specs.Arc.{arc_value};
ghost use Rattle.std.specs.List.{range_with_len, AllZip};
ghost use Rattle.pay_lanes.specs.Words.{IsOutOfCount, IsNewWorker, IsNewLane, AreTogether, AreAll, IsSameWorker, numbers, shard_numbers, began_of};
ghost use Rattle.pay_office.specs.Offices.{HasEnded, HaveLetPass};
ghost use Rattle.pay_office.specs.declared.office.StartFault.TheVariants.{Count};
ghost use Rattle.pay_office.specs.declared.office.ShutFault.TheVariants.{LaneMissing};

use crate::work::{BeginFault, Stop, Working, begin};
use pay_lanes::{Ended, Gate, Lane, OpenLanesFault, Opened, Worker, end, laws, open, put_in_order};
use pay_rules::Fares;
use pay_tables::Editions;
use std::alloc::{AllocError, Global};
use std::marker::Model;
use std::sync::{Arc, Wait};
use std::thread::Threads;
use thiserror::Error;

/// Why no office begins.
#[derive(Clone, Copy, Debug, PartialEq, Eq, Error)]
pub enum StartFault {
    /// 32: the number of shards or of lanes is not from 1 to 16, or there is not one gate for each shard.
    #[error("32 Count")]
    Count,
    /// 35: the system refused a thread.
    #[error("35 NoThread")]
    NoThread,
    /// 90: no memory.
    #[error("90 Memory")]
    Memory,
}

impl From<AllocError> for StartFault {
    ghost use Rattle.pay_office.specs.declared.office.StartFault.TheVariants.{Memory};

    ghost from_gives = { λ _ fault. fault ≡ Memory };

    fn from(_: AllocError) -> StartFault {
        StartFault::Memory
    }
}

impl From<OpenLanesFault> for StartFault {
    ghost use Rattle.pay_office.specs.Offices.{start_fault};

    ghost from_gives = { λ from fault. fault ≡ start_fault from };

    fn from(fault: OpenLanesFault) -> StartFault {
        match fault {
            OpenLanesFault::Count => StartFault::Count,
            OpenLanesFault::Memory => StartFault::Memory,
        }
    }
}

impl From<BeginFault> for StartFault {
    ghost use Rattle.pay_office.specs.Offices.{begun_fault};

    ghost from_gives = { λ from fault. fault ≡ begun_fault from };

    fn from(fault: BeginFault) -> StartFault {
        match fault {
            BeginFault::NoThread => StartFault::NoThread,
            BeginFault::Memory => StartFault::Memory,
        }
    }
}

/// Why an office is not shut.
#[derive(Clone, Copy, Debug, PartialEq, Eq, Error)]
pub enum ShutFault {
    /// 33: the numbers of the lanes are not all that were begun, each once.
    #[error("33 LaneMissing")]
    LaneMissing,
}

/// The workers of all shards, each in a thread of its own. In a contract it is the workers as they were when their threads
/// began, in order of the numbers of their shards.
#[derive(Drop)]
pub struct Office<F: Fares, G: Gate> {
    workers: Vec<Working<F, G>>,
    // How many lanes were opened with them.
    lanes: usize,
    stop: Stop,
    // Room for the workers once they are back, so that an office can be shut without memory.
    room: Vec<Worker<F, G>>,
}

impl<F: Fares, G: Gate> Model for Office<F, G> {
    ghost use Rattle.std.specs.Prelude.{◌≡◌, ◌≤◌, List, [], All, length, map as each, vec_capacity};
    ghost use Rattle.std.specs.Coded.{coded_list};
    ghost use Rattle.pay_lanes.specs.Words.{WorkerParts, worker_code, lanes_of};
    ghost use Rattle.pay_office.specs.Offices.{IsFromNone};

    ghost Value = { List WorkerParts };

    ghost coded = { coded_list worker_code };

    ghost view = { λ o. each (λ w. w.promise.0.value) o.workers.items };

    ghost invariant = { λ o. (o.lanes ≡ lanes_of (each (λ w. w.promise.0.value) o.workers.items))
        × (o.room.items ≡ []) × (length o.workers.items ≤ vec_capacity o.room)
        × All IsFromNone (each (λ w. w.promise.0.value) o.workers.items) };
}

/// Tells the workers to stop, and waits until their threads have ended. What they were is lost.
fn stop_all<F: Fares, G: Gate, R: Threads>(rt: &R, stop: &Stop, workers: Vec<Working<F, G>>) {
    stop.tell();
    for worker in workers {
        worker.join(rt);
    }
}

/// Begins a thread for each worker, or for none: if one is refused, those that were begun are stopped.
fn begin_all<F, G, R>(
    rt: R,
    alloc: Global,
    stop: &Stop,
    workers: Vec<Worker<F, G>>,
) -> Result<Vec<Working<F, G>>, StartFault>
where
    F: Fares + Send + 'static,
    G: Gate + Send + 'static,
    R: Threads + Wait + Copy + Send + 'static,
    ensures begun { IfOk result (λ working. each (λ w. w.promise.0.value) working.items ≡ workers.items) }
    ensures fault { IfErr result (λ fault. fault ≢ Count) }
{
    let mut working = Vec::with_capacity(alloc, workers.len())?;
    for worker in workers {
        match begin(rt, stop, worker) {
            Ok(one) => working.push_reserved(one),
            Err(fault) => {
                stop_all(&rt, stop, working);
                return Err(StartFault::from(fault));
            }
        }
    }
    Ok(working)
}

/// Begins so many shards, which have no accounts and price by this fare file, each in a thread of its own, and opens so many lanes
/// to them, from 1 to 16 each. Each shard has a gate, which has let nothing pass yet. Where it is refused, no thread is left, and the
/// gates are dropped.
pub fn start<F, G, R>(
    rt: R,
    alloc: Global,
    editions: Arc<Editions>,
    shards: u8,
    lanes: u8,
    gates: Vec<G>,
) -> Result<(Office<F, G>, Vec<Lane>), StartFault>
where
    F: Fares + Send + 'static,
    G: Gate + Send + 'static,
    R: Threads + Wait + Copy + Send + 'static,
    requires { All (λ gate. G.Holds gate [] false) gates.items }
    ensures count { (result ≡ Err Count) ↔ IsOutOfCount shards lanes (length gates.items) }
    ensures workers { IfOk result (λ begun. shard_numbers begun.0 ≡ range_with_len 0 shards) }
    ensures new_workers { IfOk result (λ begun. All (IsNewWorker (arc_value editions) lanes) begun.0) }
    ensures began { IfOk result (λ begun. began_of begun.0 ≡ each G.began gates.items) }
    ensures lanes { IfOk result (λ begun. numbers begun.1.items ≡ range_with_len 0 lanes) }
    ensures new_lanes { IfOk result (λ begun. All (IsNewLane shards) begun.1.items) }
    ensures together { IfOk result (λ begun. AreTogether begun.0 begun.1.items) }
{
    let Opened {
        workers,
        lanes: opened,
    } = open(alloc, editions, shards, lanes, gates)?;
    let stop = Stop::new(alloc)?;
    let room = Vec::with_capacity(alloc, workers.len())?;
    let workers = begin_all(rt, alloc, &stop, workers)?;
    let office = Office {
        workers,
        lanes: lanes as usize,
        stop,
        room,
    };
    Ok((office, opened))
}

/// Waits until the threads of workers have ended, and puts what they were into a list that has room for them.
fn join_all<F: Fares, G: Gate, R: Threads>(
    rt: &R,
    working: Vec<Working<F, G>>,
    workers: &mut Vec<Worker<F, G>>,
)
    requires room { length working.items ≤ vec_capacity workers.old }
    requires empty { workers.old.items ≡ [] }
    ensures { AllZip IsSameWorker (each (λ w. w.promise.0.value) working.items) workers.new.items }
{
    for worker in working {
        workers.push_reserved(worker.join(rt));
    }
}

/// Stops the workers of an office between their turns, once the threads of its lanes have returned, and gives what the shards were
/// asked and what was left. Where lanes are missing it gives all back, and the workers go on. It takes no memory.
pub fn shut<F: Fares, G: Gate, R: Threads + Wait>(
    rt: &R,
    office: Office<F, G>,
    lanes: Vec<Lane>,
) -> Result<Ended<G>, (ShutFault, Office<F, G>, Vec<Lane>)>
    requires { AreTogether office lanes.items }
    ensures all { OnOk result (AreAll office lanes.items) }
    ensures missing { IfErr result (λ back. (back.0 ≡ LaneMissing) × (AreAll office lanes.items → ⊥)) }
    ensures given_back { IfErr result (λ back. (back.1 ≡ office) × IsPermutation lanes.items back.2.items) }
    ensures ended { IfOk result (λ ended. HasEnded office lanes.items (each (λ j. j.items) ended.journals.items) (each vec_items ended.left.items)) }
    ensures gates { IfOk result (λ ended. HaveLetPass G.Holds office lanes.items (each (λ j. j.items) ended.journals.items) ended.gates.items) }
    ensures began { IfOk result (λ ended. each G.began ended.gates.items ≡ began_of office) }
    ensures whole { G.forgets ≡ false → IfOk result (λ ended. All (λ j. j.memory.forgotten ≡ 0) ended.journals.items) }
{
    let mut lanes = lanes;
    if !put_in_order(&mut lanes, office.lanes) {
        return Err((ShutFault::LaneMissing, office, lanes));
    }
    office.stop.tell();
    let mut workers = office.room;
    join_all(rt, office.workers, &mut workers);
    laws::still_together();
    laws::same_workers();
    match end(rt, workers, lanes) {
        Ok(ended) => Ok(ended),
        Err(_) => unreachable!(),
    }
}
