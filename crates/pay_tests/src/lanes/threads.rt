//! Two lanes, each in a thread of its own, and a worker.
ghost use Rattle.std.specs.Prelude.{◌≡◌};
ghost use Rattle.pay_lanes.specs.Words.{IsSameLane, IsSameWorker, AreTogether};

use crate::given::expect_same;
use crate::lanes::given::{add_last, bus_tap, one_route, pence, sent, take_last};
use pay_book::Book;
use pay_lanes::{Ended, Gate, Lane, Load, Opened, Turn, Worker, end, laws, open};
use pay_rules::Fares;
use pay_shard::{Answer, Entry, Journal, Shard};
use pay_tables::Editions;
use std::alloc::{AllocGlobal, Global};
use std::process::Abort;
use std::snapshot::Snapshot;
use std::sync::{Arc, Wait};
use std::test::*;
use std::thread;
use std::thread::{Promise, PromisedHandle, Threads};
use std::time::Duration;

// How many taps each lane sends.
const TAPS: u32 = 200;
// How long a thread that finds nothing rests at most, in milliseconds.
const REST: u64 = 1;

/// A gate that yields now and then.
#[derive(Drop)]
struct Yielding {
    state: u32,
}

impl Gate for Yielding {
    ghost use Rattle.std.specs.Prelude.{⊤, None, false};

    ghost Holds = { λ _ _ _. ⊤ };

    ghost began = { λ _. None };

    ghost forgets = { false };

    fn forgets() -> bool {
        false
    }

    fn before_job<R: Wait>(&mut self, _rt: &R, _shard: u8, _entry: &Entry) {
        self.state = self
            .state
            .wrapping_mul(1_664_525)
            .wrapping_add(1_013_904_223);
        for _ in 0..self.state >> 30 {
            thread::yield_now();
        }
    }

    fn after_job<R: Wait>(
        &mut self,
        _rt: &R,
        _load: Load,
        _entry: &Entry,
        _answer: &Answer,
    ) -> bool {
        true
    }
}

/// That a lane goes on as the same end of the same queues.
#[derive(Drop)]
struct SameLane(Snapshot<Lane>);

impl Promise<(Lane, Vec<Answer>)> for SameLane {
    ghost kept_by = { λ before after. IsSameLane before.0.value after.0 };
}

// Takes an answer, if there is one, or else waits until one may have come.
fn take_one<R: Wait + Abort>(rt: &R, lane: &mut Lane, taken: &mut Vec<Answer>)
    ensures { IsSameLane lane.old lane.new }
{
    match lane.take(rt) {
        Some(answer) => taken.push(answer).expect(rt, "memory"),
        None => lane.wait(rt, Duration::from_millis(REST)),
    }
}

// Sends a tap, and takes an answer each time that it is refused.
fn send_surely<R: Wait + Abort>(rt: &R, lane: &mut Lane, second: u32, taken: &mut Vec<Answer>)
    ensures { IsSameLane lane.old lane.new }
{
    laws::same_lanes();
    let command = bus_tap(rt, 7, u16::from(lane.number()) + 1, second);
    for _ in rt.forever() {
        if sent(rt, lane, command).is_ok() {
            return;
        }
        take_one(rt, lane, taken);
    }
}

// Sends all taps.
fn send_all<R: Wait + Abort>(rt: &R, lane: &mut Lane, taken: &mut Vec<Answer>)
    ensures { IsSameLane lane.old lane.new }
{
    laws::same_lanes();
    for second in 0..TAPS {
        send_surely(rt, lane, second, taken);
    }
}

// Takes answers until there are as many as taps.
fn take_all<R: Wait + Abort>(rt: &R, lane: &mut Lane, taken: &mut Vec<Answer>)
    ensures { IsSameLane lane.old lane.new }
{
    laws::same_lanes();
    for _ in rt.forever() {
        if taken.len() >= TAPS as usize {
            break;
        }
        take_one(rt, lane, taken);
    }
}

fn run_lane<R: Wait + Abort>(rt: &R, alloc: Global, mut lane: Lane) -> (Lane, Vec<Answer>)
    ensures { IsSameLane lane result.0 }
{
    laws::same_lanes();
    let mut taken = Vec::new(alloc);
    send_all(rt, &mut lane, &mut taken);
    take_all(rt, &mut lane, &mut taken);
    (lane, taken)
}

// Takes a turn. Where a lane has no room it lets others run, which have to take what is there. Whether all taps are answered.
fn is_done<F: Fares, G: Gate, R: Wait>(rt: &R, worker: &mut Worker<F, G>) -> bool
    ensures { IsSameWorker worker.old worker.new }
{
    match worker.turn(rt) {
        Turn::Held => thread::yield_now(),
        Turn::Idle => {
            if worker.shard().journal().len() >= 2 * TAPS as usize {
                return true;
            }
            worker.wait(rt, Duration::from_millis(REST));
        }
        _ => {}
    }
    false
}

// Takes turns until all taps are answered.
fn run_worker<F: Fares, G: Gate, R: Wait>(rt: &R, mut worker: Worker<F, G>) -> Worker<F, G>
    ensures { IsSameWorker worker result }
{
    laws::same_workers();
    for _ in rt.forever() {
        if is_done(rt, &mut worker) {
            break;
        }
    }
    worker
}

fn start_lane<R>(rt: R, alloc: Global, lane: Lane) -> PromisedHandle<(Lane, Vec<Answer>), SameLane>
where
    R: Threads + Wait + Abort + Copy + Send + 'static,
    ensures { result.promise.0.value ≡ lane }
{
    let same = SameLane(Snapshot::of(&lane));
    thread::spawn_with(&rt, same, move || run_lane(&rt, alloc, lane)).expect(&rt, "a thread")
}

// What stands when two lanes have run in threads of their own, and their worker in this one, and what each lane took.
fn run_all<F: Fares, G: Gate, R>(
    rt: R,
    alloc: Global,
    opened: Opened<F, G>,
) -> (Ended<G>, Vec<Answer>, Vec<Answer>)
where
    R: Threads + Wait + Abort + Copy + Send + 'static,
    requires { AreTogether opened.workers.items opened.lanes.items }
{
    laws::still_together();
    laws::same_lanes();
    laws::same_workers();
    let Opened {
        mut workers,
        mut lanes,
    } = opened;
    let worker = take_last(&rt, &mut workers);
    let second = take_last(&rt, &mut lanes);
    let first = take_last(&rt, &mut lanes);
    let first = start_lane(rt, alloc, first);
    let second = start_lane(rt, alloc, second);
    let worker = run_worker(&rt, worker);
    let (first, by_first) = first.join(&rt);
    let (second, by_second) = second.join(&rt);
    add_last(&rt, &mut workers, worker);
    add_last(&rt, &mut lanes, second);
    add_last(&rt, &mut lanes, first);
    let ended = end(&rt, workers, lanes).ok().expect(&rt, "all lanes");
    (ended, by_first, by_second)
}

// So an answer is the one that a shard of its own gives to the entry, which is the next.
fn expect_answer<F: Fares, R: Abort>(rt: &R, shard: &mut Shard<F>, entry: Entry, answer: &Answer) {
    shard.reserve(1).expect(rt, "memory");
    let wanted = shard.apply(entry);
    expect_same(
        rt,
        (answer.place, answer.ticket, answer.command, pence(answer)),
        (wanted.place, wanted.ticket, wanted.command, pence(&wanted)),
    );
}

// The next of the answers that a lane took, which is to the ticket of that number.
fn next_of<'a, R: Abort>(rt: &R, taken: &'a [Answer], next: usize) -> &'a Answer {
    let answer = taken.get(next).expect(rt, "an answer");
    expect_same(rt, answer.ticket, next as u64);
    answer
}

// So the answers that two lanes took are those that the run of the journal gives, in its order, and no more.
fn expect_run<F: Fares, R: Abort + AllocGlobal>(
    rt: &R,
    editions: Arc<Editions>,
    journal: &Journal,
    first: &[Answer],
    second: &[Answer],
) {
    let none: Vec<F> = Vec::new(rt.alloc());
    let mut shard = Shard::new(rt.alloc(), 0, editions, none)
        .ok()
        .expect(rt, "memory");
    let (mut of_first, mut of_second) = (0usize, 0usize);
    for place in 0..journal.len() {
        let entry = journal.get(place).expect(rt, "an item").entry;
        if entry.lane == 0 {
            expect_answer(rt, &mut shard, entry, next_of(rt, first, of_first));
            of_first = of_first.saturating_add(1);
        } else {
            expect_answer(rt, &mut shard, entry, next_of(rt, second, of_second));
            of_second = of_second.saturating_add(1);
        }
    }
    expect_same(rt, (of_first, of_second), (TAPS as usize, TAPS as usize));
}

// Runs two lanes and a worker, whose gate yields by this number.
fn run_once<R>(rt: R, state: u32)
where
    R: Threads + Wait + Abort + AllocGlobal + Copy + Send + 'static,
{
    let alloc = rt.alloc();
    let editions = one_route(&rt);
    let same_tables = Arc::try_clone(&editions).expect(&rt, "memory");
    let mut gates = Vec::new(alloc);
    gates.push(Yielding { state }).expect(&rt, "memory");
    let opened = open::<Book, Yielding>(alloc, editions, 1, 2, gates)
        .ok()
        .expect(&rt, "memory");
    let (ended, first, second) = run_all(rt, alloc, opened);
    let journal = ended.journals.first().expect(&rt, "a journal");
    expect_run::<Book, R>(
        &rt,
        same_tables,
        journal,
        first.as_slice(),
        second.as_slice(),
    );
}

#[test]
fn whatever_the_threads_do(rt: HostRuntime) {
    for state in 0..200 {
        run_once(rt, state);
    }
}
