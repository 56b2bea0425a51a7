//! What answers the requests of a session: a port, a desk and a till.
ghost use Rattle.std.specs.Prelude.{◌≡◌, ◌≤◌};
ghost use Rattle.pay_day.specs.declared.limits.TheConstants.{FIRST_DAY, LAST_DAY};
ghost use Rattle.pay_shard.specs.Words.{NothingIsLost};
ghost use Rattle.pay_session.specs.Asks.{IsOfAccount};
ghost use Rattle.pay_session.specs.Events.{Event, refusal_of, refusal_of_desk, said};
ghost use Rattle.pay_session.specs.Ports.{IsOpen};
ghost use Rattle.pay_session.specs.Requests.{IsAsked};
ghost use Rattle.pay_session.specs.Serving.{IsPutAt, IsCloseSaidAt};
ghost use Rattle.pay_session.specs.OneRequest.{IsAnsweredIn};
ghost use Rattle.pay_session.specs.SessionSteps.{IsAnswered};
ghost use Rattle.pay_session.specs.declared.request.Request.{Request};

use crate::asks::Asks;
use crate::port::{Port, asks_at};
use crate::request::Request;
use pay_shard::{Command, Desk, DeskFault};
use pay_till::Till;
use pay_wire::{Closed, Refusal, SpelledReply};
use pay_zone::Zone;

/// Answers requests, one after another.
pub(crate) trait Answers: Drop {
    /// What may come of a request: what answers before it, the event, and what answers after it.
    ghost Serves: { Self → Request → Event → Self → Type 0 };

    /// Answers a request.
    fn answer(&mut self, request: Request) -> SpelledReply
        requires { IsAsked request }
        ensures { IsAnswered Serves request self.old self.new result };
}

/// A port, a desk and a till.
#[derive(Drop)]
pub(crate) struct Service<'a, D, T> {
    port: Port<'a>,
    desk: &'a mut D,
    till: &'a mut T,
}

impl<'a, D: Desk, T: Till> Service<'a, D, T> {
    /// The three together.
    pub fn new(port: Port<'a>, desk: &'a mut D, till: &'a mut T) -> Service<'a, D, T>
        ensures port { result.port ≡ port.entry }
        ensures same_desk { result.desk.ghost_name ≡ desk.entry.ghost_name }
        ensures desk { result.desk.now ≡ desk.old }
        ensures same_till { result.till.ghost_name ≡ till.entry.ghost_name }
        ensures till { result.till.now ≡ till.old }
    {
        Service { port, desk, till }
    }
}

impl<'a, D: Desk, T: Till> Answers for Service<'a, D, T> {
    ghost use Rattle.pay_session.specs.Ports.{asks_at};
    ghost use Rattle.pay_session.specs.Requests.{IsAsked};
    ghost use Rattle.pay_session.specs.Serving.{IsStep};

    ghost Serves = { λ before request event after.
        IsStep D.parts T.Closes (asks_at before.port request) event (before.desk.now, before.till.now) (after.desk.now, after.till.now)
        × (after.desk.ghost_name ≡ before.desk.ghost_name) × (after.till.ghost_name ≡ before.till.ghost_name) × (after.port ≡ before.port) × (T.origin after.till.now ≡ T.origin before.till.now)
        × IsAsked request };

    fn answer(&mut self, request: Request) -> SpelledReply {
        match asks_at(self.port, request) {
            Asks::Put(command) => reply_of(self.desk, command),
            Asks::Close(day) => close(self.till, self.desk, day),
            Asks::Quit => SpelledReply::Bye,
            Asks::No(why) => SpelledReply::No(why),
        }
    }
}

/// Answers one request by a desk and a till, where all may be asked for.
pub fn answer<D: Desk, T: Till>(
    request: Request,
    zone: &Zone<'_>,
    desk: &mut D,
    till: &mut T,
) -> SpelledReply
    requires { IsAsked request }
    ensures answered { IsAnsweredIn D.parts T.Closes zone.now request (desk.old, till.old) (desk.new, till.new) result }
    ensures same_till { T.origin till.new ≡ T.origin till.old }
{
    answer_by(&mut Service::new(Port::open(zone), desk, till), request)
}

/// Answers one request at a port where all may be asked for.
fn answer_by<D: Desk, T: Till>(service: &mut Service<'_, D, T>, request: Request) -> SpelledReply
    requires open { IsOpen service.old.port.zone.now service.old.port }
    requires asked { IsAsked request }
    ensures desk_name { service.new.desk.ghost_name ≡ service.old.desk.ghost_name }
    ensures till_name { service.new.till.ghost_name ≡ service.old.till.ghost_name }
    ensures answered { IsAnsweredIn D.parts T.Closes service.old.port.zone.now request
        (service.old.desk.now, service.old.till.now) (service.new.desk.now, service.new.till.now) result }
    ensures same_till { T.origin service.new.till.now ≡ T.origin service.old.till.now }
{
    service.answer(request)
}

/// Hands a command to a desk and says its reply, as a line says it.
pub fn reply_of<D: Desk>(desk: &mut D, command: Command) -> SpelledReply
    requires { IsOfAccount command }
    ensures put { IsPutAt D.parts desk.old desk.new command result }
    ensures transcript { NothingIsLost (D.parts desk.old).transcript (D.parts desk.new).transcript }
    ensures same_desk { (D.parts desk.new).standing ≡ (D.parts desk.old).standing }
{
    pay_shard::laws::put_then_get::<D>();
    let ticket = match desk.put(command) {
        Ok(ticket) => ticket,
        Err(fault) => return SpelledReply::No(refusal_of_desk(fault)),
    };
    match desk.get(ticket) {
        Ok(reply) => said(reply),
        Err(fault) => SpelledReply::No(refusal_of_desk(fault)),
    }
}

/// Has a till close a day over a desk, and says what came of it.
fn close<D: Desk, T: Till>(till: &mut T, desk: &mut D, day: u32) -> SpelledReply
    requires { (FIRST_DAY ≤ day) × (day ≤ LAST_DAY) }
    ensures closed { IsCloseSaidAt D.parts desk.old desk.new day (λ of put answer. T.Closes till.old day of put answer till.new) result }
    ensures transcript { NothingIsLost (D.parts desk.old).transcript (D.parts desk.new).transcript }
    ensures same_desk { (D.parts desk.new).standing ≡ (D.parts desk.old).standing }
    ensures same_till { T.origin till.new ≡ T.origin till.old }
{
    match till.close(desk, day) {
        Ok(postings) => SpelledReply::Closed(Closed { day, postings }),
        Err(why) => SpelledReply::No(why),
    }
}

/// A desk's reply, as a line says it.
pub fn said(reply: pay_shard::Reply) -> SpelledReply
    ensures { result ≡ said reply }
{
    match reply {
        pay_shard::Reply::Priced(priced) => SpelledReply::Priced(priced),
        pay_shard::Reply::No(why) => SpelledReply::No(refusal_of(why)),
        pay_shard::Reply::Due(quote) => SpelledReply::Due(quote),
        pay_shard::Reply::Shown(shown) => SpelledReply::Shown(shown),
        pay_shard::Reply::Quotes(_) => SpelledReply::No(Refusal::DeskFault),
        pay_shard::Reply::Memory => SpelledReply::No(Refusal::Memory),
    }
}

/// A shard's refusal, as a line says it.
fn refusal_of(why: pay_shard::ShardRefusal) -> Refusal
    ensures { result ≡ refusal_of why }
{
    match why {
        pay_shard::ShardRefusal::UnknownPlace => Refusal::UnknownPlace,
        pay_shard::ShardRefusal::Conflict => Refusal::Conflict,
        pay_shard::ShardRefusal::AccountFull => Refusal::AccountFull,
        pay_shard::ShardRefusal::FixConflict => Refusal::FixConflict,
        pay_shard::ShardRefusal::FixesFull => Refusal::FixesFull,
    }
}

/// A desk's fault, as a line says it.
pub fn refusal_of_desk(fault: DeskFault) -> Refusal
    ensures { result ≡ refusal_of_desk fault }
{
    match fault {
        DeskFault::Busy => Refusal::Busy,
        DeskFault::Window => Refusal::Window,
        DeskFault::NotKept => Refusal::NotKept,
        DeskFault::Late => Refusal::Late,
        DeskFault::Memory => Refusal::Memory,
    }
}
