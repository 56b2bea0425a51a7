//! A desk over a lane.
ghost use Rattle.std.specs.Prelude.{◌≡◌, ◌≤◌, [], ◌∷◌, ◌++◌, length, Err, IfOk, IfErr, OnErr};
ghost use Rattle.pay_shard.specs.declared.limits.TheConstants.{MOST_SHARDS};
ghost use Rattle.pay_lanes.specs.Words.{IsSameLane};
ghost use Rattle.pay_rules.specs.InTurn.{IsIn};
ghost use Rattle.pay_shard.specs.Words.{IsForShards, IsAfterAll, IsNoneOf, IsReplyTo, NothingIsLost, with_waiting, without};
ghost use Rattle.pay_shard.specs.declared.desk.DeskFault.TheVariants.{Busy, Late};
ghost use Rattle.pay_office.specs.Waits.{commands_sent, NoneIsHidden};
ghost use Rattle.pay_office.specs.LaneDesks.{desk_parts, refusal_of, MayRefuse, WasBusy, HasNoReply};

use crate::limits::LAST_RESTS;
use crate::waiting::{AllWaiting, Patience, Waiting, take_all, take_out, take_until};
use arrayvec::ArrayVec;
use pay_lanes::{Lane, SendFault};
use pay_shard::{Answer, Command, Desk, DeskFault, Reply, Ticket};
use std::alloc::Global;
use std::marker::Model;
use std::snapshot::Snapshot;
use std::sync::atomic::AtomicBool;
use std::sync::{Arc, Wait};

/// A desk over a lane: it sends each command to the shard that answers it, and keeps what comes for its own `get`. At most 16
/// commands wait. In a contract it is the lane as it was when the desk began, the lane as it is, and the tickets that wait.
#[derive(Drop)]
pub struct LaneDesk<R: Wait + Copy> {
    rt: R,
    lane: Lane,
    began: Snapshot<Lane>,
    waiting: AllWaiting,
    // What tells it to wait no longer, if something does, and how often it rests then.
    told: Option<Arc<AtomicBool>>,
    last_rests: u32,
}

impl<R: Wait + Copy> Model for LaneDesk<R> {
    ghost use Rattle.pay_office.specs.LaneDesks.{LaneDeskParts, lane_desk_code, IsAtLane};
    ghost use Rattle.pay_office.specs.Waits.{tickets_of};

    ghost Value = { LaneDeskParts };

    ghost coded = { lane_desk_code };

    ghost view = { λ d. record { began = d.began.value; lane = d.lane; waiting = tickets_of d.waiting.items } };

    ghost invariant = { λ d. IsAtLane d.began.value d.lane d.waiting.items };
}

impl<R: Wait + Copy> LaneDesk<R> {
    /// A desk over a lane.
    pub fn new(rt: R, alloc: Global, lane: Lane) -> LaneDesk<R>
        requires shards { (1 ≤ length lane.shards) × (length lane.shards ≤ MOST_SHARDS) }
        ensures { result ≡ record { began = lane; lane = lane; waiting = [] } }
    {
        pay_lanes::laws::same_lanes();
        let _ = lane.number();
        LaneDesk {
            rt,
            began: Snapshot::of(&lane),
            lane,
            waiting: ArrayVec::new_in(alloc),
            told: None,
            last_rests: LAST_RESTS,
        }
    }

    /// The same desk, for which a reply is late soon, once it is told so: the first a tenth of a second after it began to wait, and then
    /// each that has not come.
    pub fn until(self, told: Arc<AtomicBool>) -> LaneDesk<R>
        ensures { result ≡ self }
    {
        LaneDesk {
            told: Some(told),
            ..self
        }
    }

    /// Its lane. What was not got is dropped. All that the lane sent stands among its commands.
    #[tactic(auto, using(crate::proofs::Commands::none_hidden))]
    pub fn into_lane(self) -> Lane
        ensures lane { result ≡ self.lane }
        ensures same { IsSameLane self.began result }
        ensures none_hidden { NoneIsHidden result }
    {
        let _ = self.lane.number();
        self.lane
    }
}

/// Why a desk refuses what its lane does not send.
fn refusal(fault: SendFault) -> DeskFault
    ensures { result ≡ refusal_of fault }
{
    match fault {
        SendFault::Window => DeskFault::Window,
        SendFault::Busy => DeskFault::Busy,
    }
}

impl<R: Wait + Copy> Desk for LaneDesk<R> {
    ghost use Rattle.pay_lanes.specs.Words.{LaneParts};

    ghost Origin = { LaneParts };

    ghost parts = { desk_parts };

    fn shards(&self) -> u8 {
        self.lane.shards() as u8
    }

    // The trait's clauses, and of a refusal its cause.
    fn put(&mut self, command: Command) -> Result<Ticket, DeskFault>
        requires { IsForShards (desk_parts self.old).standing.shards command }
        ensures added { IfOk result (λ ticket. commands_sent self.new.lane ≡ commands_sent self.old.lane ++ (ticket, command) ∷ []) }
        ensures later { IfOk result (λ ticket. IsAfterAll ticket (commands_sent self.old.lane)) }
        ensures fresh { IfOk result (λ ticket. IsNoneOf ticket self.old.waiting) }
        ensures waits { IfOk result (λ ticket. (desk_parts self.new).standing ≡ with_waiting (self.old.waiting ++ ticket ∷ []) (desk_parts self.old).standing) }
        ensures not_added { OnErr result (commands_sent self.new.lane ≡ commands_sent self.old.lane) }
        ensures none_waits { OnErr result ((desk_parts self.new).standing ≡ (desk_parts self.old).standing) }
        ensures refused { IfErr result (MayRefuse self.old) }
        ensures busy { result ≡ Err Busy → WasBusy self.old self.new }
        ensures transcript { NothingIsLost (desk_parts self.old).transcript (desk_parts self.new).transcript }
    {
        pay_lanes::laws::same_lanes();
        take_all(&self.rt, &mut self.lane, &mut self.waiting);
        if self.waiting.is_full() {
            return Err(DeskFault::Window);
        }
        let ticket = match self.lane.send(&self.rt, command) {
            Ok(ticket) => ticket,
            Err(fault) => return Err(refusal(fault)),
        };
        self.waiting.push(Waiting {
            ticket: ticket.number(),
            command,
            answer: None,
        });
        Ok(ticket)
    }

    // The trait's clauses, and that it is late only where no reply is there.
    fn get(&mut self, ticket: Ticket) -> Result<Reply, DeskFault>
        requires { IsIn (desk_parts self.old).standing.waiting ticket }
        ensures reply { IfOk result (λ reply. IsReplyTo ticket (desk_parts self.new).taken (desk_parts self.new).transcript reply) }
        ensures late { IfErr result (λ fault. (fault ≡ Late) × (desk_parts self.old).MayBeLate) }
        ensures none { OnErr result (HasNoReply ticket self.new) }
        ensures got { (desk_parts self.new).standing ≡ with_waiting (without ticket self.old.waiting) (desk_parts self.old).standing }
        ensures none_added { commands_sent self.new.lane ≡ commands_sent self.old.lane }
        ensures transcript { NothingIsLost (desk_parts self.old).transcript (desk_parts self.new).transcript }
    {
        pay_lanes::laws::same_lanes();
        let patience = Patience {
            told: self.told.as_deref(),
            rests: self.last_rests,
        };
        take_until(
            &self.rt,
            &mut self.lane,
            &mut self.waiting,
            ticket.number(),
            patience,
        );
        let Some(Answer { reply, .. }) = take_out(&mut self.waiting, ticket.number()) else {
            self.last_rests = 0;
            return Err(DeskFault::Late);
        };
        Ok(reply)
    }
}
