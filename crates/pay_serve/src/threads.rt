//! The thread of a lane.
ghost use Rattle.std.specs.Prelude.{◌≡◌, []};
ghost use Rattle.pay_serve.specs.Begins.{line};

use crate::begins::{Awaits, Begins, Told};
use jiff::tz::TimeZone;
use pay_office::Lane;
use pay_session::Role;
use std::snapshot::Snapshot;
use std::thread::{Promise, PromisedHandle};

/// What the thread of a lane gives back: the lane, and by what it is told whether it begins.
#[derive(Drop)]
pub struct Serving {
    pub lane: Lane,
    pub awaits: Awaits,
}

/// That a lane is told whether it begins, and goes on by it as the same end of the same queues: it sends nothing but what lines ask for
/// in a zone, of whoever may ask there, and nothing at all if it does not begin.
#[derive(Drop)]
pub struct GoesOn {
    pub began: Snapshot<Serving>,
    pub zone: TimeZone<'static>,
    pub role: Role,
}

impl Promise<Serving> for GoesOn {
    ghost use Rattle.pay_serve.specs.Begins.{HasServed};

    ghost kept_by = { λ it after. HasServed (it.zone, it.role) (it.began.value.lane, it.began.value.awaits) (after.lane, after.awaits) };
}

/// The thread of a lane, which waits until it is told whether it begins, and what tells it.
#[derive(Drop)]
pub struct Begun {
    pub thread: PromisedHandle<Serving, GoesOn>,
    pub begins: Begins,
    ghost same_line: { thread.promise.began.value.awaits ≡ line begins.mailbox [] },
}

/// The thread of a lane, and what has told it whether it begins.
#[derive(Drop)]
pub struct Going {
    pub thread: PromisedHandle<Serving, GoesOn>,
    pub told: Told,
    ghost same_line: { thread.promise.began.value.awaits ≡ line told.mailbox [] },
}
