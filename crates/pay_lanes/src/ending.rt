//! Takes workers and lanes back once their threads have returned.
ghost use Rattle.std.specs.Prelude.{◌≡◌, ◌<◌, ◌≤◌, ◌⊎◌, false, [], ◌∷◌, ◌++◌, All, length, map as each, IsTrue, ◌↔◌, IfOk, IfErr, OnOk, OnErr, IsPermutation, vec_items, vec_capacity};
ghost use Rattle.std.specs.List.{range_with_len};
ghost use mathlib.Core.List.{IsPrefix};
ghost use Rattle.pay_mailbox.specs.Words.{of};
ghost use Rattle.pay_lanes.specs.Gates.{HavePassed, IsNextGate};
ghost use Rattle.pay_lanes.specs.Openings.{began_of};
ghost use Rattle.pay_lanes.specs.Turns.{by_shard};
ghost use Rattle.pay_lanes.specs.Ends.{lanes_of, numbers, AreAll, AreTogether, arrived, sent_by, IsAnswered, exchanged, all_exchanged, IsNext, HasLeft, IsKnown, AreKnown, AreJournalsFrom, IsRight};
ghost use Rattle.pay_lanes.specs.declared.limits.TheConstants.{MOST_JOURNALS};

use crate::gate::Gate;
use crate::lane::Lane;
use crate::limits::MOST_JOURNALS;
use crate::senders::{ByLane, ByShard};
use crate::worker::Worker;
use arrayvec::ArrayVec;
use pay_mailbox::Outbox;
use pay_rules::Fares;
use pay_shard::{Answer, Entry, Journal};
use std::alloc::Global;
use std::sync::Wait;
use thiserror::Error;

/// Why nothing ends.
#[derive(Clone, Copy, Debug, PartialEq, Eq, Error)]
pub enum EndFault {
    /// 33: the numbers of the lanes are not all that were opened, each once.
    #[error("33 LaneMissing")]
    LaneMissing,
}

/// What the shards were asked, and what they were not asked any more. Each list has the shards in the order of their workers.
#[derive(Drop)]
pub struct Ended<G: Gate> {
    /// The journal of each shard: all items, which can be got unless the gates forget.
    pub journals: ArrayVec<Journal, MOST_JOURNALS, Global>,
    /// The entries that each shard did not pop, those of each lane in its order.
    pub left: ArrayVec<Vec<Entry>, MOST_JOURNALS, Global>,
    /// The gate of each shard.
    pub gates: Vec<G>,
}

/// How many lanes were opened with these workers.
fn lanes_of<F: Fares, G: Gate>(workers: &[Worker<F, G>]) -> usize
    ensures { result ≡ lanes_of workers.now }
{
    match workers.first() {
        Some(worker) => worker.lanes.len(),
        None => 0,
    }
}

/// Whether the lanes are so many, and each stands at the place of its number.
fn are_in_order(lanes: &[Lane], count: usize) -> bool
    ensures { IsTrue result ↔ (numbers lanes.now ≡ range_with_len 0 count) }
{
    for place in 0..lanes.len() {
        if lanes[place].number() as usize != place {
            return false;
        }
    }
    lanes.len() == count
}

/// Puts lanes in order of their numbers. Whether they are so many, of the numbers from 0 on, each once.
pub fn put_in_order(lanes: &mut Vec<Lane>, count: usize) -> bool
    ensures moved { IsPermutation lanes.old.items lanes.new.items }
    ensures all { IsTrue result ↔ IsPermutation (range_with_len 0 count) (numbers lanes.old.items) }
    ensures in_order { IsTrue result → numbers lanes.new.items ≡ range_with_len 0 count }
{
    lanes.sort_unstable_by_key(|lane| lane.number);
    are_in_order(lanes, count)
}

/// Takes the first way of a lane, and gives the way to it back.
#[tactic(auto, using(crate::proofs::Owned::single_rest))]
fn exchange(lane: &mut Lane, way: Outbox<Answer, ByShard>) -> Outbox<Entry, ByLane>
    requires some { 0 < length lane.old.shards }
    requires own { way.mailbox ≡ lane.old.answers.mailbox }
    ensures lane { lane.new ≡ exchanged lane.old way }
    ensures first { lane.old.shards ≡ result ∷ lane.new.shards }
    ensures number { result.number ≡ lane.old.number }
    ensures taken { IsPrefix (of by_shard way.number lane.old.answers.got) way.sent }
{
    lane.answers.rejoin(way);
    lane.answers.compare();
    lane.shards.remove(0)
}

/// Puts a gate after others. Where there are none it takes the room for all.
fn keep_gate<G: Gate>(gates: &mut Vec<G>, room: Vec<G>, gate: G)
    requires few { length gates.old.items < MOST_JOURNALS }
    requires empty { room.items ≡ [] }
    requires room { MOST_JOURNALS ≤ vec_capacity room }
    requires has_room { (gates.old.items ≡ []) ⊎ (MOST_JOURNALS ≤ vec_capacity gates.old) }
    ensures items { gates.new.items ≡ gates.old.items ++ gate ∷ [] }
    ensures has_room { MOST_JOURNALS ≤ vec_capacity gates.new }
{
    if gates.is_empty() {
        *gates = room;
    }
    gates.push_reserved(gate);
}

/// Ends a worker: each lane gives its way to it back, and gets the worker's way to it.
fn end_worker<F: Fares, G: Gate, R: Wait>(
    rt: &R,
    worker: Worker<F, G>,
    lanes: &mut Vec<Lane>,
    gates: &mut Vec<G>,
) -> (Journal, Vec<Entry>)
    requires next { IsNext worker lanes.old.items }
    requires few { length gates.old.items < MOST_JOURNALS }
    requires has_room { (gates.old.items ≡ []) ⊎ (MOST_JOURNALS ≤ vec_capacity gates.old) }
    ensures journal { result.0.items ≡ worker.shard.journal }
    ensures whole { G.forgets ≡ false → result.0.memory.forgotten ≡ 0 }
    ensures right { IsRight worker }
    ensures lanes { lanes.new.items ≡ all_exchanged lanes.old.items worker.lanes }
    ensures sent { All (HasLeft worker result.1.items) lanes.old.items }
    ensures known { IsKnown worker result.1.items }
    ensures answered { All (λ l. IsAnswered l worker) lanes.old.items }
    ensures passed { IsNextGate G.Holds lanes.old.items worker gates.old.items gates.new.items }
    ensures began { each G.began gates.new.items ≡ each G.began gates.old.items ++ worker.began ∷ [] }
    ensures has_room { MOST_JOURNALS ≤ vec_capacity gates.new }
{
    let Worker {
        shard,
        mut requests,
        lanes: mut ways,
        mut left,
        gate,
        gates: room,
        ..
    } = worker;
    keep_gate(gates, room, gate);
    for place in 0..lanes.len() {
        let way = ways.remove(0);
        requests.rejoin(exchange(&mut lanes[place], way));
    }
    requests.receive_rest(rt, &mut left);
    (shard.into_journal(), left)
}

/// Ends workers and lanes that were opened together, once their threads have returned. It takes no memory. Where lanes are
/// missing, it gives all back.
pub fn end<F: Fares, G: Gate, R: Wait>(
    rt: &R,
    workers: Vec<Worker<F, G>>,
    lanes: Vec<Lane>,
) -> Result<Ended<G>, (EndFault, Vec<Worker<F, G>>, Vec<Lane>)>
    requires { AreTogether workers.items lanes.items }
    ensures all { OnOk result (AreAll workers.items lanes.items) }
    ensures missing { OnErr result (AreAll workers.items lanes.items → ⊥) }
    ensures given_back { IfErr result (λ back. (back.1 ≡ workers) × IsPermutation lanes.items back.2.items) }
    ensures journals { IfOk result (λ ended. each (λ j. j.items) ended.journals.items ≡ each (λ w. w.shard.journal) workers.items) }
    ensures whole { G.forgets ≡ false → IfOk result (λ ended. All (λ j. j.memory.forgotten ≡ 0) ended.journals.items) }

    // What stands in the journal of a shard was asked of that shard, and memory was refused only where it may have been.
    ensures asked { OnOk result (AreJournalsFrom (length workers.items) 0 (each (λ w. w.shard.journal) workers.items)) }
    ensures right { OnOk result (All IsRight workers.items) }
    ensures many { IfOk result (λ ended. length ended.left.items ≡ length workers.items) }

    // What each lane sent to a shard stands in its journal or is left there, in order, and each entry once. Of a lane that was
    // not opened there is nothing.
    ensures sent { IfOk result (λ ended. All (λ l. arrived l.number workers.items (each vec_items ended.left.items) ≡ sent_by l) lanes.items) }
    ensures known { IfOk result (λ ended. AreKnown workers.items (each vec_items ended.left.items)) }

    // What each lane took from a shard is the first of what the run of its journal answers at the lane's items.
    ensures answered { OnOk result (All (λ l. All (IsAnswered l) workers.items) lanes.items) }

    // Each gate holds what it let pass of that run, and that it then refused one more, exactly if its worker is shut. What a lane took is
    // the first of what was let pass. It began with what it began with.
    ensures gates { IfOk result (λ ended. HavePassed G.Holds lanes.items workers.items ended.gates.items) }
    ensures began { IfOk result (λ ended. each G.began ended.gates.items ≡ began_of workers.items) }
{
    let mut lanes = lanes;
    let count = lanes_of(&workers);
    if !put_in_order(&mut lanes, count) {
        return Err((EndFault::LaneMissing, workers, lanes));
    }
    let alloc = *workers.allocator();
    let mut ended = Ended {
        journals: ArrayVec::new_in(alloc),
        left: ArrayVec::new_in(alloc),
        gates: Vec::new(alloc),
    };
    for worker in workers {
        let (journal, left) = end_worker(rt, worker, &mut lanes, &mut ended.gates);
        ended.journals.push(journal);
        ended.left.push(left);
    }
    Ok(ended)
}
