//! By what a lane is told whether it begins.
ghost use Rattle.std.specs.Prelude.{◌≡◌, [], IfOk};
ghost use mathlib.Core.List.{IsPrefix};
ghost use Rattle.pay_serve.specs.Begins.{having_heard, having_told, AreNewEnds};

use pay_mailbox::{Inbox, Outbox, Senders};
use std::alloc::{AllocError, Global};
use std::marker::Model;
use std::sync::Wait;
use std::time::Duration;

/// Why a lane has no thread.
#[derive(Clone, Copy)]
pub enum LaneFault {
    /// The system refused it.
    NoThread,
    /// No memory for what it needs.
    Memory,
}

/// All that a lane is told is from one.
pub struct OfOne;

impl Senders<bool> for OfOne {
    ghost sender = { λ _. 0 };
}

/// Tells a lane whether it begins, and did not yet. In a contract it is an end of a line by which nothing was told.
#[derive(Drop)]
pub struct Begins {
    outbox: Outbox<bool, OfOne>,
}

impl Model for Begins {
    ghost use Rattle.std.specs.Prelude.{◌≡◌, []};
    ghost use Rattle.pay_serve.specs.Begins.{LineParts, line_code, sending_end};

    ghost Value = { LineParts };

    ghost coded = { line_code };

    ghost view = { λ b. sending_end b.outbox };

    ghost invariant = { λ b. (b.outbox.number ≡ 0) × (b.outbox.mailbox.capacity ≡ 1) × (b.outbox.sent ≡ []) };
}

/// What has told a lane whether it begins. In a contract it is an end of a line, with what was told by it.
#[derive(Drop)]
pub struct Told {
    outbox: Outbox<bool, OfOne>,
}

impl Model for Told {
    ghost use Rattle.std.specs.Prelude.{◌≡◌};
    ghost use Rattle.pay_serve.specs.Begins.{LineParts, line_code, sending_end};

    ghost Value = { LineParts };

    ghost coded = { line_code };

    ghost view = { λ t. sending_end t.outbox };

    ghost invariant = { λ t. t.outbox.number ≡ 0 };
}

/// By what a lane is told. In a contract it is the other end of a line, with what was told there.
#[derive(Drop)]
pub struct Awaits {
    inbox: Inbox<bool, OfOne>,
}

impl Model for Awaits {
    ghost use Rattle.std.specs.Prelude.{◌≡◌, []};
    ghost use Rattle.pay_serve.specs.Begins.{LineParts, line_code, receiving_end};

    ghost Value = { LineParts };

    ghost coded = { line_code };

    ghost view = { λ a. receiving_end a.inbox };

    ghost invariant = { λ a. a.inbox.back ≡ [] };
}

impl Begins {
    /// Both ends of a line for a lane, which is told nothing yet. `Err` is want of memory.
    pub fn open(alloc: Global) -> Result<(Begins, Awaits), AllocError>
        ensures { IfOk result (λ ends. AreNewEnds ends.0 ends.1) }
    {
        let mut inbox = Inbox::open(alloc, 1)?;
        let outbox = inbox.outbox()?;
        Ok((Begins { outbox }, Awaits { inbox }))
    }

    /// Tells the lane whether it begins. It is told once.
    pub fn tell<R: Wait>(self, rt: &R, begins: bool) -> Told
        ensures { result ≡ having_told self begins }
    {
        let mut outbox = self.outbox;
        match outbox.send(rt, begins) {
            Ok(()) => Told { outbox },
            Err(_) => unreachable!(),
        }
    }
}

impl Told {
    /// What a lane was told is what this has told it.
    pub fn compare(self, awaits: Awaits)
        requires { awaits.mailbox ≡ self.mailbox }
        ensures { IsPrefix awaits.told self.told }
    {
        let (mut inbox, outbox) = (awaits.inbox, self.outbox);
        inbox.rejoin(outbox);
        inbox.compare();
    }
}

impl Awaits {
    /// Waits until it is told whether the lane begins.
    pub fn wait<R: Wait>(&mut self, rt: &R) -> bool
        ensures { self.new ≡ having_heard self.old result }
    {
        let longest = Duration::from_secs(1);
        for _ in rt.forever() {
            if let Some(begins) = self.inbox.receive(rt) {
                return begins;
            }
            self.inbox.wait(rt, longest);
        }
        unreachable!()
    }
}
