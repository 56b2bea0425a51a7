//! The reply to a line of a client.
ghost use Rattle.std.specs.Prelude.{◌≡◌, ◌++◌, [], length, map, vec_items, IfOk, OnOk};
ghost use Rattle.pay_wire.specs.Words.{spelling_of_reply};
ghost use Rattle.pay_session.specs.Requests.{IsAsked as IsInRange, is_quit};
ghost use Rattle.pay_front.specs.Answers.{AreAsked, IsAnswered, IsAsked, IsRouted, latest_of, port_of};

use crate::closes::put_together;
use crate::partitions::{Now, Partitions};
use crate::route::{Route, route_of};
use pay_session::{Port, Request, Role};
use pay_wire::{Refusal, SpelledReply, send};
use pay_zone::Zone;
use std::alloc::{AllocError, Global};

/// A port of a front.
#[derive(Clone, Copy)]
pub struct Front<'a> {
    /// The zone in which instants are read, and by whose clock days are over.
    pub zone: &'a Zone<'a>,
    /// Who may ask there.
    pub role: Role,
    /// How many seconds a tap may be ahead of the clock. Without it, any.
    pub ahead: Option<u32>,
    /// How many partitions the log has.
    pub of: u8,
}

impl<'a> Front<'a> {
    /// The port at an instant, of which a tap is not too far ahead, if it is known.
    fn port(&self, now: Option<u64>) -> Port<'a>
        ensures { result ≡ port_of self.now now }
    {
        Port {
            zone: self.zone,
            role: self.role,
            latest: latest_of(now, self.ahead),
        }
    }
}

/// The last instant that a tap may have, by the clock and by how far it may be ahead.
fn latest_of(now: Option<u64>, ahead: Option<u32>) -> Option<u64>
    ensures { result ≡ latest_of now ahead }
{
    match (now, ahead) {
        (Some(now), Some(ahead)) => now.checked_add(u64::from(ahead)),
        _ => None,
    }
}

/// Writes a refusal at the end.
fn put_refusal(out: &mut Vec<u8>, why: Refusal) -> Result<(), AllocError>
    ensures { OnOk result (out.new.items ≡ out.old.items ++ spelling_of_reply (SpelledReply.No why)) }
{
    match send(out, &SpelledReply::No(why)) {
        Ok(()) => Ok(()),
        Err(_) => Err(AllocError),
    }
}

/// Puts the reply that a partition gives to a line in place of what was held, or 52 where it did not come in time.
fn ask_one<P: Partitions>(
    partitions: &mut P,
    partition: u8,
    line: &[u8],
    out: &mut Vec<u8>,
) -> Result<(), AllocError>
    ensures { OnOk result (IsAsked P.MayGive partition line.now partitions.old out.new.items partitions.new) }
{
    if partitions.ask(partition, line, out) {
        return Ok(());
    }
    out.clear();
    put_refusal(out, Refusal::Late)
}

/// The replies that all partitions give to a line, in their order.
fn ask_all<P: Partitions>(
    alloc: Global,
    partitions: &mut P,
    of: u8,
    line: &[u8],
) -> Result<Vec<Vec<u8>>, AllocError>
    ensures asked { IfOk result (λ replies. AreAsked P.MayGive 0 line.now partitions.old (map vec_items replies.items) partitions.new) }
    ensures count { IfOk result (λ replies. length replies.items ≡ of) }
{
    let mut replies = Vec::new(alloc);
    for partition in 0..of {
        let mut reply = Vec::new(alloc);
        ask_one(partitions, partition, line, &mut reply)?;
        replies.push(reply).map_err(AllocError::from)?;
    }
    Ok(replies)
}

/// Puts the reply to a line in place of what was held.
pub(crate) fn answer_line<P: Partitions, C: Now>(
    alloc: Global,
    front: &Front<'_>,
    clock: &mut C,
    partitions: &mut P,
    request: Request,
    line: &[u8],
    out: &mut Vec<u8>,
) -> Result<(), AllocError>
    requires { IsInRange request }
    ensures { OnOk result (IsAnswered P.MayGive front.now request line.now partitions.old out.new.items partitions.new) }
{
    let now = clock.now();
    let route = route_of(front.port(now), front.of, now, request);
    take_route(alloc, front.of, partitions, route, line, out)
}

/// Puts what comes of a line in place of what was held, by where it goes.
fn take_route<P: Partitions>(
    alloc: Global,
    of: u8,
    partitions: &mut P,
    route: Route,
    line: &[u8],
    out: &mut Vec<u8>,
) -> Result<(), AllocError>
    ensures { OnOk result (IsRouted P.MayGive of route line.now partitions.old out.new.items partitions.new) }
{
    out.clear();
    match route {
        Route::Quits => out.extend_from_slice(b"BYE\n"),
        Route::Refused(why) => put_refusal(out, why),
        Route::To(partition) => ask_one(partitions, partition, line, out),
        Route::ToAll(day) => {
            let replies = ask_all(alloc, partitions, of, line)?;
            put_together(alloc, day, replies.as_slice(), out)
        }
    }
}
