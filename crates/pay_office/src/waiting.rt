//! The commands of a desk that wait for their replies.
ghost use Rattle.std.specs.Prelude.{◌≡◌, ◌==◌, Some, IfSome, IfNone};
ghost use Rattle.std.specs.List.{find, position};
ghost use Rattle.pay_rules.specs.InTurn.{IsIn};
ghost use Rattle.pay_lanes.specs.Words.{LaneParts, IsSameLane};
ghost use Rattle.pay_office.specs.Waits.{tickets_of, AreWaiting, having_answer, waiting_without, HasTaken, IsToldOf, IsUntoldOf};

use crate::limits::{DESK_REST, LOOKS, MOST_WAITING, RESTS};
use crate::same_command::is_same_command;
use arrayvec::ArrayVec;
use pay_day::limits::FIRST_DAY;
use pay_lanes::Lane;
use pay_shard::{Answer, Asked, Command};
use std::alloc::Global;
use std::default::MadeWith;
use std::sync::Wait;
use std::sync::atomic::{AtomicBool, Ordering};
use std::thread;
use std::time::Duration;

/// A command that waits for its reply.
#[derive(Drop)]
pub struct Waiting {
    /// The ticket that was given for it.
    pub ticket: u64,
    /// The command.
    pub command: Command,
    /// The first answer under its ticket, once it was taken.
    pub answer: Option<Answer>,
}

// What lies in the places of an `ArrayVec` where nothing waits.
impl MadeWith<Global> for Waiting {
    fn made_with(_: Global) -> Waiting {
        let first = Asked::Due {
            account: 1,
            day: FIRST_DAY,
        };
        Waiting {
            ticket: 0,
            command: Command::new(first),
            answer: None,
        }
    }
}

/// The commands that wait.
pub(crate) type AllWaiting = ArrayVec<Waiting, MOST_WAITING, Global>;

/// Where the first that waits under a ticket stands.
fn place_of(waiting: &[Waiting], ticket: u64) -> Option<usize>
    ensures { result ≡ position (λ w. w.ticket == ticket) waiting.now }
{
    waiting.iter().position(|one| one.ticket == ticket)
}

/// Whether the command under a ticket has its answer.
pub(crate) fn is_answered(waiting: &[Waiting], ticket: u64) -> bool {
    match place_of(waiting, ticket) {
        Some(place) => waiting[place].answer.is_some(),
        None => false,
    }
}

/// Keeps an answer for the command that waits under its ticket, unless that has one.
fn keep(waiting: &mut AllWaiting, answer: Answer)
    ensures { waiting.new.items ≡ having_answer answer waiting.old.items }
{
    if let Some(place) = place_of(waiting, answer.ticket) {
        let one = &mut waiting[place];
        if one.answer.is_none() {
            one.answer = Some(answer);
        }
    }
}

/// Takes the oldest answer of a lane, if there is one, and keeps it for the command that waits for it. Whether there was one.
fn take_one<R: Wait>(rt: &R, lane: &mut Lane, waiting: &mut AllWaiting) -> bool
    requires { AreWaiting lane.old waiting.old.items }
    ensures lane { HasTaken lane.old lane.new }
    ensures same { IsSameLane lane.old lane.new }
    ensures waiting { AreWaiting lane.new waiting.new.items }
    ensures tickets { tickets_of waiting.new.items ≡ tickets_of waiting.old.items }
{
    let Some(answer) = lane.take(rt) else {
        return false;
    };
    keep(waiting, answer);
    true
}

/// Takes what has come to a lane, and keeps it for the commands that wait for it.
pub(crate) fn take_all<R: Wait>(rt: &R, lane: &mut Lane, waiting: &mut AllWaiting)
    requires { AreWaiting lane.old waiting.old.items }
    ensures lane { HasTaken lane.old lane.new }
    ensures same { IsSameLane lane.old lane.new }
    ensures waiting { AreWaiting lane.new waiting.new.items }
    ensures tickets { tickets_of waiting.new.items ≡ tickets_of waiting.old.items }
{
    pay_lanes::laws::same_lanes();
    for _ in 0..MOST_WAITING {
        if !take_one(rt, lane, waiting) {
            return;
        }
    }
}

/// Lets other threads run, or rests until an answer may have come, once a reply was looked for often enough.
fn pause<R: Wait>(rt: &R, lane: &mut Lane, looks: u32)
    ensures { lane.new ≡ lane.old }
{
    if looks < LOOKS {
        thread::yield_now();
    } else {
        lane.wait(rt, Duration::from_millis(DESK_REST));
    }
}

/// How long a desk waits for a reply: until it is late, or not so long, where something tells it so.
#[derive(Clone, Copy)]
pub(crate) struct Patience<'a> {
    /// What tells it, if something does.
    pub told: Option<&'a AtomicBool>,
    /// How often it rests then.
    pub rests: u32,
}

impl Patience<'_> {
    /// Whether it is told, and has looked often enough.
    fn is_over(&self, looks: u32) -> bool {
        match self.told {
            Some(told) => looks >= LOOKS.saturating_add(self.rests) && told.load(Ordering::SeqCst),
            None => false,
        }
    }
}

/// Takes what comes to a lane until the command under a ticket has its answer, or that is late, or the desk has waited long enough.
pub(crate) fn take_until<R: Wait>(
    rt: &R,
    lane: &mut Lane,
    waiting: &mut AllWaiting,
    ticket: u64,
    patience: Patience<'_>,
)
    requires { AreWaiting lane.old waiting.old.items }
    ensures lane { HasTaken lane.old lane.new }
    ensures same { IsSameLane lane.old lane.new }
    ensures waiting { AreWaiting lane.new waiting.new.items }
    ensures tickets { tickets_of waiting.new.items ≡ tickets_of waiting.old.items }
{
    pay_lanes::laws::same_lanes();
    for looks in 0..LOOKS + RESTS {
        take_all(rt, lane, waiting);
        if is_answered(waiting, ticket) || patience.is_over(looks) {
            return;
        }
        pause(rt, lane, looks);
    }
}

/// Takes the command that waits under a ticket out, and gives its answer, if one came that is to this command.
#[tactic(auto, using(crate::proofs::Waited::removed_at))]
pub(crate) fn take_out(waiting: &mut AllWaiting, ticket: u64) -> Option<Answer>
    requires { IsIn (tickets_of waiting.old.items) ticket }
    ensures told { IfSome result (IsToldOf ticket waiting.old.items) }
    ensures none { IfNone result (IsUntoldOf ticket waiting.old.items) }
    ensures rest { waiting.new.items ≡ waiting_without ticket waiting.old.items }
{
    let Some(place) = place_of(waiting, ticket) else {
        unreachable!()
    };
    let Waiting {
        command,
        answer,
        ..
    } = waiting.remove(place);
    match answer {
        Some(answer) if is_same_command(&answer.command, &command) => Some(answer),
        _ => None,
    }
}
