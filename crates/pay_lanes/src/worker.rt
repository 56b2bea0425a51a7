//! The worker of a shard.
ghost use Rattle.std.specs.Prelude.{◌≡◌, ℕ, ◌<◌, ◌≤◌, false, IsTrue, [], None, Some, All, length, IfSome, OnSome, OnOk, OnErr, IfNone, vec_capacity};
ghost use Rattle.pay_mailbox.specs.Words.{HasAll};
ghost use Rattle.pay_shard.specs.Words.{ShardParts, IsKeptBy};
ghost use Rattle.pay_lanes.specs.Gates.{all_answered, IsGated};
ghost use Rattle.pay_lanes.specs.Openings.{IsNewSender};
ghost use Rattle.pay_lanes.specs.Parts.{sent_at, WasFullAt};
ghost use Rattle.pay_lanes.specs.Turns.{by_lane, by_shard, HasDone, HasPoppedNone, IsHeldUp};
ghost use Rattle.pay_lanes.specs.Working.{HasItem, IsOfferable, AreTold, mailboxes, IsSameWorker};
ghost use Rattle.pay_lanes.specs.declared.limits.TheConstants.{MOST_JOURNALS};
ghost use Rattle.pay_lanes.specs.declared.worker.Turn.TheVariants as turns;

use crate::gate::{Gate, Load};
use crate::outgoing::Outgoing;
use crate::senders::{ByLane, ByShard};
use crate::sending::send_at;
use pay_mailbox::{Inbox, Outbox};
use pay_rules::Fares;
use pay_shard::{Answer, Entry, Shard};
use std::marker::Model;
use std::sync::Wait;
use std::time::Duration;

/// What a worker did in a turn.
#[derive(Clone, Copy, Debug, PartialEq, Eq)]
pub enum Turn {
    /// It popped nothing, since no entry waited at one moment of the call. An answer that was held is sent.
    Idle,
    /// It applied the entry that stands at this place of its journal. The answer is sent, or held.
    Did(usize),
    /// Nothing, since the lane of the last answer had no room for it.
    Held,
    /// It popped nothing, since there is no memory for an item of the journal. An answer that was held is sent.
    Starved,
    /// Nothing, and nothing any more, since the gate did not let the last answer pass.
    Shut,
}

/// An end of the queues, which one thread has at a time: it answers what the lanes send to its shard. In a contract it is
/// its shard, what it popped, what it sent to each lane, the answer that is held, whether it is held for good, and what its gate
/// began with.
#[derive(Drop)]
pub struct Worker<F: Fares, G: Gate> {
    pub(crate) shard: Shard<F>,
    pub(crate) requests: Inbox<Entry, ByLane>,
    // At each place the way to the lane of that number.
    pub(crate) lanes: Vec<Outbox<Answer, ByShard>>,
    // The last answer, if its lane had no room for it, or the gate did not let it pass.
    held: Option<Outgoing>,
    // Whether it did not.
    shut: bool,
    pub(crate) gate: G,
    // Empty, with room for all entries that may be left when the threads have returned.
    pub(crate) left: Vec<Entry>,
    // Empty, with room for the gates of all workers.
    pub(crate) gates: Vec<G>,
}

impl<F: Fares, G: Gate> Model for Worker<F, G> {
    ghost use Rattle.std.specs.Prelude.{◌≡◌, ◌≤◌, [], vec_capacity};
    ghost use Rattle.pay_lanes.specs.Gates.{IsGated};
    ghost use Rattle.pay_lanes.specs.Parts.{WorkerParts, worker_code};
    ghost use Rattle.pay_lanes.specs.Working.{IsWorking};
    ghost use Rattle.pay_shard.specs.Words.{IsKeptBy};
    ghost use Rattle.pay_lanes.specs.declared.limits.TheConstants.{MOST_JOURNALS};

    ghost Value = { WorkerParts };

    ghost coded = { worker_code };

    ghost view = { λ w. record { shard = w.shard; requests = w.requests; lanes = w.lanes.items; held = w.held; shut = w.shut; began = G.began w.gate } };

    ghost invariant = { λ w. IsWorking (record { shard = w.shard; requests = w.requests; lanes = w.lanes.items; held = w.held; shut = w.shut; began = G.began w.gate })
        × (w.left.items ≡ [])
        × (w.requests.mailbox.capacity ≤ vec_capacity w.left)
        × IsGated (G.Holds w.gate) w.shard w.shut w.lanes.items
        × (w.gates.items ≡ [])
        × (MOST_JOURNALS ≤ vec_capacity w.gates)
        × IsKeptBy G.forgets w.shard };
}

/// Sends an answer to its lane. It comes back only if the lane's queue was full at one moment of the call.
fn offer<R: Wait>(
    rt: &R,
    lanes: &mut Vec<Outbox<Answer, ByShard>>,
    outgoing: Outgoing,
) -> Option<Outgoing>
    requires { IsOfferable lanes.old.items outgoing }
    ensures sent { IfNone result (lanes.new.items ≡ sent_at outgoing.lane outgoing.answer lanes.old.items) }
    ensures refused { IfSome result (λ back. (back ≡ outgoing) × (lanes.new.items ≡ lanes.old.items)) }
    ensures full { OnSome result (WasFullAt by_shard lanes.old.items outgoing.lane) }
{
    let Outgoing { lane, answer } = outgoing;
    match send_at(rt, lanes, lane as usize, answer) {
        Ok(()) => None,
        Err(answer) => Some(Outgoing { lane, answer }),
    }
}

/// Offers the answer that is held, if there is one.
fn offer_held<R: Wait>(
    rt: &R,
    lanes: &mut Vec<Outbox<Answer, ByShard>>,
    held: &mut Option<Outgoing>,
)
    requires { IfSome held.old (IsOfferable lanes.old.items) }
    ensures told { (s : ShardParts) → AreTold s held.old lanes.old.items → AreTold s held.new lanes.new.items }
    ensures mailboxes { mailboxes lanes.new.items ≡ mailboxes lanes.old.items }
    ensures held { IfSome held.new (λ o. (held.old ≡ Some o) × (lanes.new.items ≡ lanes.old.items) × WasFullAt by_shard lanes.old.items o.lane) }
{
    if let Some(outgoing) = held.take() {
        *held = offer(rt, lanes, outgoing);
    }
}

/// Passes the gate with an entry that was popped, after which so many waited, and answers it. The answer comes back if its lane had no
/// room for it, or if the gate did not let it pass: then the worker is shut.
fn answer<F: Fares, G: Gate, R: Wait>(
    rt: &R,
    shard: &mut Shard<F>,
    gate: &mut G,
    lanes: &mut Vec<Outbox<Answer, ByShard>>,
    entry: Entry,
    waiting: usize,
    shut: &mut bool,
) -> Option<Outgoing>
    requires room { 0 < shard.old.memory.room }
    requires lane { entry.lane < length lanes.old.items }
    requires told { AreTold shard.old None lanes.old.items }
    requires not_shut { shut.old ≡ false }
    requires gate { G.Holds gate.old (all_answered shard.old) false }
    ensures item { HasItem shard.old entry shard.new }
    ensures kept { IsKeptBy G.forgets shard.old → IsKeptBy G.forgets shard.new }
    ensures told { AreTold shard.new result lanes.new.items }
    ensures held { IfSome result (IsOfferable lanes.new.items) }
    ensures mailboxes { mailboxes lanes.new.items ≡ mailboxes lanes.old.items }
    ensures gated { IsGated (G.Holds gate.new) shard.new shut.new lanes.new.items }
    ensures began { G.began gate.new ≡ G.began gate.old }
{
    gate.before_job(rt, shard.number(), &entry);
    let answer = shard.apply(entry);
    let accounts = shard.accounts();
    let lane = entry.lane;
    if !gate.after_job(rt, Load { accounts, waiting }, &entry, &answer) {
        *shut = true;
        return Some(Outgoing { lane, answer });
    }
    offer(rt, lanes, Outgoing { lane, answer })
}

impl<F: Fares, G: Gate> Worker<F, G> {
    /// A worker that has popped and sent nothing.
    pub(crate) fn new(
        shard: Shard<F>,
        requests: Inbox<Entry, ByLane>,
        lanes: Vec<Outbox<Answer, ByShard>>,
        gate: G,
        left: Vec<Entry>,
        gates: Vec<G>,
    ) -> Worker<F, G>
        requires shard { shard.journal ≡ [] }
        requires memory { shard.memory ≡ record { forgotten = 0; room = 0 } }
        requires requests { (requests.got ≡ []) × (requests.made ≡ length lanes.items) }
        requires lanes { All (IsNewSender shard.number) lanes.items }
        requires gate { G.Holds gate [] false }
        requires left { (left.items ≡ []) × (requests.mailbox.capacity ≤ vec_capacity left) }
        requires gates { (gates.items ≡ []) × (MOST_JOURNALS ≤ vec_capacity gates) }
        ensures { result ≡ record { shard = shard; requests = requests; lanes = lanes.items; held = None; shut = false; began = G.began gate } }
    {
        Worker {
            shard,
            requests,
            lanes,
            held: None,
            shut: false,
            gate,
            left,
            gates,
        }
    }

    /// Its shard. Where its gate forgets, no more than a block of the journal is in memory; else all of it is.
    pub fn shard(&self) -> &Shard<F>
        ensures value { result.now ≡ self.now.shard }
        ensures kept { IsKeptBy G.forgets result.now }
    {
        &self.shard
    }

    /// Waits until an entry is sent, and not at all if one was sent since it last waited. It waits no longer than `longest`, and
    /// may end sooner.
    pub fn wait<R: Wait>(&mut self, rt: &R, longest: Duration)
        ensures { self.new ≡ self.old }
    {
        self.requests.wait(rt, longest);
    }

    /// Answers the oldest entry that waits. It offers an answer first that its lane had no room for, and it pops no entry
    /// before the journal has room for it. Once the gate did not let an answer pass, it does nothing.
    pub fn turn<R: Wait>(&mut self, rt: &R) -> Turn
        ensures same { IsSameWorker self.old self.new }
        ensures did { (place : ℕ) → result ≡ turns.Did place → HasDone self.old place self.new }

        // That all was popped of lanes that are back binds the body to look; while none is back, it tells a caller nothing.
        ensures idle { result ≡ turns.Idle → HasPoppedNone self.old self.new × HasAll by_lane self.old.requests }
        ensures held { result ≡ turns.Held → (self.new ≡ self.old) × IsHeldUp self.old }
        ensures starved { result ≡ turns.Starved → HasPoppedNone self.old self.new × (self.old.shard.memory.room ≡ 0) }
        ensures shut { result ≡ turns.Shut → (self.new ≡ self.old) × IsTrue self.old.shut }
        ensures stays_shut { IsTrue self.old.shut → result ≡ turns.Shut }
    {
        let Worker {
            shard,
            requests,
            lanes,
            held,
            shut,
            gate,
            ..
        } = self;
        if *shut {
            return Turn::Shut;
        }
        offer_held(rt, lanes, held);
        if held.is_some() {
            return Turn::Held;
        }
        if shard.make_room(G::forgets()).is_err() {
            return Turn::Starved;
        }
        let Some(entry) = requests.receive(rt) else {
            return Turn::Idle;
        };
        let waiting = requests.waiting(rt);
        let place = shard.journal().len();
        *held = answer(rt, shard, gate, lanes, entry, waiting, shut);
        Turn::Did(place)
    }
}
