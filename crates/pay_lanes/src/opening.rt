//! Makes lanes and workers, with the queues between them.
ghost use Rattle.std.specs.Prelude.{◌≡◌, ◌<◌, ◌≤◌, ◌↔◌, false, [], All, length, map as each, vec_items, Err, IfOk, OnOk};
ghost use Rattle.std.specs.Arc.{arc_value};
ghost use Rattle.std.specs.List.{range_with_len, AllZip};
ghost use Rattle.pay_lanes.specs.Ends.{numbers, AreTogether};
ghost use Rattle.pay_lanes.specs.Openings.{IsOutOfCount, IsNewWorker, IsNewLane, IsNewReceiver, IsNewSender, AreNewSenders, IsReady, shard_numbers, began_of, requests_of, ways_of, having_made_more, senders_after, lanes_from};
ghost use Rattle.pay_shard.specs.declared.limits.TheConstants.{MOST_SHARDS};
ghost use Rattle.pay_lanes.specs.declared.limits.TheConstants.{MOST_LANES, MOST_REQUESTS};
ghost use Rattle.pay_lanes.specs.declared.opening.OpenLanesFault.TheVariants.{Count};

use crate::gate::Gate;
use crate::lane::Lane;
use crate::limits::{MOST_ANSWERS, MOST_JOURNALS, MOST_LANES, MOST_REQUESTS};
use crate::senders::{ByLane, ByShard};
use crate::worker::Worker;
use pay_mailbox::{Inbox, Outbox, Senders};
use pay_rules::Fares;
use pay_shard::limits::MOST_SHARDS;
use pay_shard::{Answer, Entry, Shard};
use pay_tables::Editions;
use std::alloc::{AllocError, Global};
use std::sync::Arc;
use thiserror::Error;

/// Why nothing is opened.
#[derive(Clone, Copy, Debug, PartialEq, Eq, Error)]
pub enum OpenLanesFault {
    /// 32: the number of shards or of lanes is not from 1 to 16, or there is not one gate for each shard.
    #[error("32 Count")]
    Count,
    /// 90: no memory.
    #[error("90 Memory")]
    Memory,
}

impl From<AllocError> for OpenLanesFault {
    ghost use Rattle.std.specs.Prelude.{◌≡◌};
    ghost use Rattle.pay_lanes.specs.declared.opening.OpenLanesFault.TheVariants.{Memory};

    ghost from_gives = { λ _ fault. fault ≡ Memory };

    fn from(_: AllocError) -> OpenLanesFault {
        OpenLanesFault::Memory
    }
}

/// Workers and lanes that were opened together.
#[derive(Drop)]
pub struct Opened<F: Fares, G: Gate> {
    /// The worker of each shard, in order of their numbers.
    pub workers: Vec<Worker<F, G>>,
    /// The lanes, in order of their numbers.
    pub lanes: Vec<Lane>,
}

/// So many mailboxes of this capacity, without senders.
fn inboxes<T: Drop, S: Senders<T>>(
    alloc: Global,
    count: u8,
    capacity: usize,
) -> Result<Vec<Inbox<T, S>>, AllocError>
    requires { 0 < capacity }
    ensures count { IfOk result (λ made. length made.items ≡ count) }
    ensures new { IfOk result (λ made. All (IsNewReceiver capacity) made.items) }
{
    let mut made = Vec::new(alloc);
    for _ in 0..count {
        made.push(Inbox::open(alloc, capacity)?)?;
    }
    Ok(made)
}

/// One more sender of each of these mailboxes.
fn outboxes<T: Drop, S: Senders<T>>(
    alloc: Global,
    inboxes: &mut [Inbox<T, S>],
) -> Result<Vec<Outbox<T, S>>, AllocError>
    ensures made { IfOk result (λ made. made.items ≡ senders_after 0 inboxes.old) }
    ensures inboxes { OnOk result (inboxes.new ≡ having_made_more 1 inboxes.old) }
{
    let mut made = Vec::new(alloc);
    for inbox in inboxes.iter_mut() {
        made.push(inbox.outbox()?)?;
    }
    Ok(made)
}

/// So many lists of senders of these mailboxes.
fn all_outboxes<T: Drop, S: Senders<T>>(
    alloc: Global,
    inboxes: &mut [Inbox<T, S>],
    count: u8,
) -> Result<Vec<Vec<Outbox<T, S>>>, AllocError>
    ensures made { IfOk result (λ made. each vec_items made.items ≡ each (λ k. senders_after k inboxes.old) (range_with_len 0 count)) }
    ensures inboxes { OnOk result (inboxes.new ≡ having_made_more count inboxes.old) }
{
    let mut made = Vec::new(alloc);
    for _ in 0..count {
        made.push(outboxes(alloc, inboxes)?)?;
    }
    Ok(made)
}

/// A lane for each of these mailboxes, with a list of senders to the shards.
fn all_lanes(
    alloc: Global,
    shards: Vec<Vec<Outbox<Entry, ByLane>>>,
    answers: Vec<Inbox<Answer, ByShard>>,
) -> Result<Vec<Lane>, AllocError>
    requires count { length answers.items ≡ length shards.items }
    requires few { length shards.items ≤ MOST_LANES }
    requires shards { AreNewSenders 0 (each vec_items shards.items) }
    requires answers { All (λ r. r.got ≡ []) answers.items }
    ensures { IfOk result (λ made. made.items ≡ lanes_from 0 (each vec_items shards.items) answers.items) }
{
    let mut made = Vec::new(alloc);
    let mut number = 0;
    for (shards, answers) in shards.into_iter().zip(answers) {
        made.push(Lane::new(number, shards, answers))?;
        number += 1;
    }
    Ok(made)
}

/// The worker of a shard without accounts.
fn worker<F: Fares, G: Gate>(
    alloc: Global,
    editions: &Arc<Editions>,
    number: u8,
    requests: Inbox<Entry, ByLane>,
    lanes: Vec<Outbox<Answer, ByShard>>,
    gate: G,
) -> Result<Worker<F, G>, AllocError>
    requires requests { IsReady MOST_REQUESTS (length lanes.items) requests }
    requires lanes { All (IsNewSender number) lanes.items }
    requires gate { G.Holds gate [] false }
    ensures number { IfOk result (λ made. made.shard.number ≡ number) }
    ensures requests { IfOk result (λ made. made.requests ≡ requests) }
    ensures lanes { IfOk result (λ made. made.lanes ≡ lanes.items) }
    ensures new { IfOk result (IsNewWorker (arc_value editions.now) (length lanes.items)) }
    ensures began { IfOk result (λ made. made.began ≡ G.began gate) }
{
    let editions = Arc::try_clone(editions)?;
    let Ok(shard) = Shard::new(alloc, number, editions, Vec::new(alloc)) else {
        return Err(AllocError);
    };
    let left = Vec::with_capacity(alloc, MOST_REQUESTS)?;
    let gates = Vec::with_capacity(alloc, MOST_JOURNALS)?;
    Ok(Worker::new(shard, requests, lanes, gate, left, gates))
}

/// A worker for each of these mailboxes, with a list of senders to the lanes.
fn all_workers<F: Fares, G: Gate>(
    alloc: Global,
    editions: &Arc<Editions>,
    requests: Vec<Inbox<Entry, ByLane>>,
    lanes: Vec<Vec<Outbox<Answer, ByShard>>>,
    gates: Vec<G>,
) -> Result<Vec<Worker<F, G>>, AllocError>
    requires few { length requests.items ≤ MOST_SHARDS }
    requires gates { length gates.items ≡ length requests.items }
    requires none { All (λ gate. G.Holds gate [] false) gates.items }
    requires requests { AllZip (λ senders r. IsReady MOST_REQUESTS (length senders) r) (each vec_items lanes.items) requests.items }
    requires lanes { AreNewSenders 0 (each vec_items lanes.items) }
    ensures numbers { IfOk result (λ made. shard_numbers made.items ≡ range_with_len 0 (length requests.items)) }
    ensures requests { IfOk result (λ made. requests_of made.items ≡ requests.items) }
    ensures lanes { IfOk result (λ made. ways_of made.items ≡ each vec_items lanes.items) }
    ensures new { IfOk result (λ made. All (λ w. IsNewWorker (arc_value editions.now) (length w.lanes) w) made.items) }
    ensures began { IfOk result (λ made. began_of made.items ≡ each G.began gates.items) }
{
    let mut made = Vec::new(alloc);
    let mut number = 0;
    for ((requests, lanes), gate) in requests.into_iter().zip(lanes).zip(gates) {
        made.push(worker(alloc, editions, number, requests, lanes, gate)?)?;
        number += 1;
    }
    Ok(made)
}

/// Opens so many shards, which have no accounts and price by this fare file, and so many lanes, from 1 to 16 each. Each shard
/// has a gate, which has let nothing pass yet. Where it is refused, the gates are dropped.
pub fn open<F: Fares, G: Gate>(
    alloc: Global,
    editions: Arc<Editions>,
    shards: u8,
    lanes: u8,
    gates: Vec<G>,
) -> Result<Opened<F, G>, OpenLanesFault>
    requires { All (λ gate. G.Holds gate [] false) gates.items }
    ensures count { (result ≡ Err Count) ↔ IsOutOfCount shards lanes (length gates.items) }
    ensures workers { IfOk result (λ opened. shard_numbers opened.workers.items ≡ range_with_len 0 shards) }
    ensures new_workers { IfOk result (λ opened. All (IsNewWorker (arc_value editions) lanes) opened.workers.items) }
    ensures began { IfOk result (λ opened. began_of opened.workers.items ≡ each G.began gates.items) }
    ensures lanes { IfOk result (λ opened. numbers opened.lanes.items ≡ range_with_len 0 lanes) }
    ensures new_lanes { IfOk result (λ opened. All (IsNewLane shards) opened.lanes.items) }
    ensures together { IfOk result (λ opened. AreTogether opened.workers.items opened.lanes.items) }
{
    if shards == 0
        || shards > MOST_SHARDS
        || lanes == 0
        || lanes > MOST_LANES
        || gates.len() != shards as usize
    {
        return Err(OpenLanesFault::Count);
    }
    let mut requests = inboxes(alloc, shards, MOST_REQUESTS)?;
    let mut answers = inboxes(alloc, lanes, MOST_ANSWERS)?;
    let to_shards = all_outboxes(alloc, &mut requests, lanes)?;
    let to_lanes = all_outboxes(alloc, &mut answers, shards)?;
    let lanes = all_lanes(alloc, to_shards, answers)?;
    let workers = all_workers(alloc, &editions, requests, to_lanes, gates)?;
    Ok(Opened { workers, lanes })
}
