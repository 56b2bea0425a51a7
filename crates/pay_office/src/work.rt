//! A worker in a thread of its own.
ghost use Rattle.std.specs.Prelude.{◌≡◌, IfOk};
ghost use Rattle.pay_lanes.specs.Words.{IsSameWorker};

use crate::limits::{LOOKS, WORKER_REST};
use pay_lanes::{Gate, Turn, Worker, laws};
use pay_rules::Fares;
use std::alloc::{AllocError, Global};
use std::snapshot::Snapshot;
use std::sync::atomic::{AtomicBool, Ordering};
use std::sync::{Arc, Wait};
use std::thread;
use std::thread::{Promise, PromisedHandle, Threads};
use std::time::Duration;

/// That a worker goes on as the same end of the same queues.
#[derive(Drop)]
pub struct SameWorker<F: Fares, G: Gate>(pub Snapshot<Worker<F, G>>);

impl<F: Fares, G: Gate> Promise<Worker<F, G>> for SameWorker<F, G> {
    ghost kept_by = { λ before after. IsSameWorker before.0.value after };
}

/// What tells workers to stop. All that are made from one are told together.
#[derive(Drop)]
pub(crate) struct Stop {
    told: Arc<AtomicBool>,
}

impl Stop {
    /// Of workers that are not told yet.
    pub(crate) fn new(alloc: Global) -> Result<Stop, AllocError> {
        let told = Arc::new(alloc, AtomicBool::new(false))?;
        Ok(Stop { told })
    }

    /// The same for one more worker.
    fn again(&self) -> Result<Stop, AllocError> {
        let told = Arc::try_clone(&self.told)?;
        Ok(Stop { told })
    }

    /// Tells the workers to stop.
    pub(crate) fn tell(&self) {
        self.told.store(true, Ordering::SeqCst);
    }

    /// Whether the workers are told to stop.
    fn is_told(&self) -> bool {
        self.told.load(Ordering::SeqCst)
    }
}

/// A worker in its thread.
pub(crate) type Working<F, G> = PromisedHandle<Worker<F, G>, SameWorker<F, G>>;

/// Why a worker does not begin.
#[derive(Clone, Copy)]
pub(crate) enum BeginFault {
    /// The system refused a thread.
    NoThread,
    /// No memory.
    Memory,
}

impl From<AllocError> for BeginFault {
    ghost use Rattle.pay_office.specs.declared.work.BeginFault.TheVariants.{Memory};

    ghost from_gives = { λ _ fault. fault ≡ Memory };

    fn from(_: AllocError) -> BeginFault {
        BeginFault::Memory
    }
}

/// Takes a turn, or lets other threads run where there is nothing to do, and rests once it has looked often enough. How often it has
/// looked since.
fn look<F: Fares, G: Gate, R: Wait>(rt: &R, worker: &mut Worker<F, G>, looks: u32) -> u32
    ensures { IsSameWorker worker.old worker.new }
{
    if let Turn::Did(_) = worker.turn(rt) {
        return 0;
    }
    if looks < LOOKS {
        thread::yield_now();
        return looks + 1;
    }
    worker.wait(rt, Duration::from_millis(WORKER_REST));
    looks
}

/// Takes turns until it is told to stop.
fn work<F: Fares, G: Gate, R: Wait>(rt: &R, stop: &Stop, mut worker: Worker<F, G>) -> Worker<F, G>
    ensures { IsSameWorker worker result }
{
    laws::same_workers();
    let mut looks = 0;
    for _ in rt.forever() {
        if stop.is_told() {
            break;
        }
        looks = look(rt, &mut worker, looks);
    }
    worker
}

/// Begins a thread of a worker, which works until it is told to stop.
pub(crate) fn begin<F, G, R>(
    rt: R,
    stop: &Stop,
    worker: Worker<F, G>,
) -> Result<Working<F, G>, BeginFault>
where
    F: Fares + Send + 'static,
    G: Gate + Send + 'static,
    R: Threads + Wait + Copy + Send + 'static,
    ensures { IfOk result (λ working. working.promise.0.value ≡ worker) }
{
    let stop = stop.again()?;
    let same = SameWorker(Snapshot::of(&worker));
    match thread::spawn_with(&rt, same, move || work(&rt, &stop, worker)) {
        Ok(working) => Ok(working),
        Err(_) => Err(BeginFault::NoThread),
    }
}
