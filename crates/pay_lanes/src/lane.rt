//! A lane: it sends commands to the shards, and takes the answers to them.
ghost use Rattle.std.specs.Prelude.{◌≡◌, ◌<◌, ◌≤◌, ◌↔◌, ◌⊎◌, ◌^◌, [], All, length, Ok, Err, IfOk, OnOk, OnErr, IfSome, IfNone};
ghost use Rattle.pay_mailbox.specs.Words.{HasAll};
ghost use Rattle.pay_shard.specs.Words.{IsForShards};
ghost use Rattle.pay_lanes.specs.Openings.{IsNewSender};
ghost use Rattle.pay_lanes.specs.Parts.{shard_of, unanswered, having_asked, having_taken, WasFullAt};
ghost use Rattle.pay_lanes.specs.Working.{IsOwn, all_sent, AreSingle, IsSameLane};
ghost use Rattle.pay_lanes.specs.Turns.{by_lane, by_shard};
ghost use Rattle.pay_lanes.specs.declared.lane.SendFault.TheVariants.{Window, Busy};
ghost use Rattle.pay_lanes.specs.declared.limits.TheConstants.{WINDOW, MOST_TICKETS};

use crate::limits::{MOST_TICKETS, WINDOW};
use crate::senders::{ByLane, ByShard};
use crate::sending::send_at;
use pay_mailbox::{Inbox, Outbox};
use pay_shard::{Answer, Asked, Command, Entry, Ticket};
use std::marker::Model;
use std::sync::Wait;
use std::time::Duration;
use thiserror::Error;

/// Why a lane sends no command. Nothing was sent.
#[derive(Clone, Copy, Debug, PartialEq, Eq, Error)]
pub enum SendFault {
    /// 31: as many commands of the lane are unanswered as may be.
    #[error("31 Window")]
    Window,
    /// 30: the queue of the shard was full at one moment, or the lane has given all its tickets.
    #[error("30 Busy")]
    Busy,
}

/// An end of the queues, which one thread has at a time: it sends commands to the shards, and takes their answers. In a
/// contract it is its number, what it sent to each shard, what it took, how many tickets it has given, and the number of the
/// next.
#[derive(Drop)]
pub struct Lane {
    pub(crate) number: u8,
    // At each place the way to the shard of that number.
    pub(crate) shards: Vec<Outbox<Entry, ByLane>>,
    pub(crate) answers: Inbox<Answer, ByShard>,
    tickets: u64,
    // The number of the next ticket, which is that of the tickets given as long as each answer is to one of these.
    next: u64,
    // How many answers it took.
    taken: u64,
}

impl Model for Lane {
    ghost use Rattle.std.specs.Prelude.{◌≡◌, ◌≤◌, ◌-◌, ◌^◌, All, length, min};
    ghost use Rattle.pay_lanes.specs.Parts.{LaneParts, lane_code};
    ghost use Rattle.pay_lanes.specs.Working.{IsOwn, all_sent, AreSingle, AreGiven};
    ghost use Rattle.pay_lanes.specs.declared.limits.TheConstants.{MOST_TICKETS};

    ghost Value = { LaneParts };

    ghost coded = { lane_code };

    ghost view = { λ l. record { number = l.number; shards = l.shards.items; answers = l.answers; tickets = l.tickets; next = l.next } };

    ghost invariant = { λ l. All (IsOwn l.number l.next) l.shards.items
        × AreSingle (all_sent l.shards.items)
        × AreGiven l.next l.answers.got
        × (l.tickets ≤ l.next)
        × (l.taken ≡ min (length l.answers.got) (2 ^ 64 - 1)) };
}

/// The shard that answers what is asked: that of the account, or the one that it names.
fn shard_of(shards: usize, asked: &Asked) -> usize
    requires { 0 < shards }
    ensures { result ≡ shard_of shards asked.now }
{
    match asked {
        Asked::Tap(tap) => tap.account as usize % shards,
        Asked::Fix(fix) => fix.account as usize % shards,
        Asked::Due { account, .. } | Asked::Show { account, .. } => *account as usize % shards,
        Asked::Quotes { shard, .. } => *shard as usize,
    }
}

impl Lane {
    /// A lane that has sent and taken nothing.
    pub(crate) fn new(
        number: u8,
        shards: Vec<Outbox<Entry, ByLane>>,
        answers: Inbox<Answer, ByShard>,
    ) -> Lane
        requires shards { All (IsNewSender number) shards.items }
        requires answers { answers.got ≡ [] }
        ensures { result ≡ record { number = number; shards = shards.items; answers = answers; tickets = 0; next = 0 } }
    {
        Lane {
            number,
            shards,
            answers,
            tickets: 0,
            next: 0,
            taken: 0,
        }
    }

    /// Its number. What it sent it sent under that, and under tickets below that of the next, no two under one.
    pub fn number(&self) -> u8
        ensures value { result ≡ self.now.number }
        ensures own { All (IsOwn self.now.number self.now.next) self.now.shards }
        ensures single { AreSingle (all_sent self.now.shards) }
    {
        self.number
    }

    /// How many shards there are.
    pub fn shards(&self) -> usize
        ensures { result ≡ length self.now.shards }
    {
        self.shards.len()
    }

    /// How many of its commands are unanswered.
    pub fn unanswered(&self) -> u64
        ensures { result ≡ unanswered self.now }
    {
        self.tickets.saturating_sub(self.taken)
    }

    /// Sends a command to the shard that answers it, and gives the ticket for it: the first has the number 0, the second 1,
    /// and so on, and each is above those of all answers that were taken. Quotes have to be asked of one of as many shards as there are.
    pub fn send<R: Wait>(&mut self, rt: &R, command: Command) -> Result<Ticket, SendFault>
        requires some { 0 < length self.old.shards }
        requires shards { IsForShards (length self.old.shards) command }
        ensures sent { OnOk result (self.new ≡ having_asked self.old command) }
        ensures ticket { IfOk result (λ ticket. ticket ≡ self.old.next) }
        ensures new { OnOk result (All (λ a. a.ticket < self.old.next) self.old.answers.got) }
        ensures place { OnOk result (shard_of (length self.old.shards) command < length self.old.shards) }
        ensures later { IfOk result (λ ticket. All (λ s. All (λ entry. entry.ticket < ticket) s.sent) self.old.shards) }
        ensures same { IsSameLane self.old self.new }
        ensures refused { OnErr result (self.new ≡ self.old) }
        ensures window { (result ≡ Err Window) ↔ (WINDOW ≤ unanswered self.old) }
        ensures busy { result ≡ Err Busy → (MOST_TICKETS ≤ self.old.next) ⊎ WasFullAt by_lane self.old.shards (shard_of (length self.old.shards) command) }
    {
        if self.unanswered() >= WINDOW {
            return Err(SendFault::Window);
        }
        if self.next >= MOST_TICKETS {
            return Err(SendFault::Busy);
        }
        let ticket = self.next;
        let shard = shard_of(self.shards.len(), &command.asked());
        let entry = Entry {
            lane: self.number,
            ticket,
            command,
        };
        match send_at(rt, &mut self.shards, shard, entry) {
            Ok(()) => {
                self.tickets += 1;
                self.next += 1;
                Ok(Ticket::of(ticket))
            }
            Err(_) => Err(SendFault::Busy),
        }
    }

    /// Waits until an answer is sent, and not at all if one was sent since it last waited. It waits no longer than `longest`, and
    /// may end sooner.
    pub fn wait<R: Wait>(&mut self, rt: &R, longest: Duration)
        ensures { self.new ≡ self.old }
    {
        self.answers.wait(rt, longest);
    }

    /// The oldest answer that it did not take yet, or `None` if there was none at one moment of the call.
    pub fn take<R: Wait>(&mut self, rt: &R) -> Option<Answer>
        ensures taken { IfSome result (λ answer. self.new ≡ having_taken self.old answer) }
        ensures same { IsSameLane self.old self.new }
        ensures none { IfNone result (self.new ≡ self.old) }

        // That all was got of shards that are back binds the body to look; while none is back, it tells a caller nothing.
        ensures all { IfNone result (HasAll by_shard self.old.answers) }
    {
        let answer = self.answers.receive(rt)?;
        self.taken = self.taken.saturating_add(1);
        self.next = self.next.max(answer.ticket.saturating_add(1));
        Some(answer)
    }
}
