//! Lines that are handed to a desk before the reply to the first of them is got, so that all its shards have something to do.
ghost use Rattle.std.specs.Prelude.{◌≡◌, ◌+◌, ◌≤◌, [], length, IfSome, IfNone};
ghost use Rattle.pay_rules.specs.InTurn.{IsIn};
ghost use Rattle.pay_shard.specs.Words.{NothingIsLost, with_waiting, without};
ghost use Rattle.pay_session.specs.Asks.{asks_of};
ghost use Rattle.pay_session.specs.Requests.{request_of};
ghost use Rattle.pay_journal.specs.HandedOn.{IsPut, IsNotPut, ArePutFirst, IsGot, first_missed};
ghost use Rattle.pay_journal.specs.Replays.{IsStepBy};

use crate::limits::MOST_AHEAD;
use crate::replaying::{Step, is_question, why_ended};
use arrayvec::ArrayVec;
use pay_session::{Asks, asks_of, cut, refusal_of_desk, request_of, said};
use pay_shard::{Desk, Ticket};
use pay_wire::{Refusal, SpelledReply};
use pay_zone::Zone;

/// The numbers of the tickets of what was put and not got, in order.
type Tickets = ArrayVec<u64, MOST_AHEAD>;

/// The first command that was not answered by prices.
#[derive(Clone, Copy)]
pub(crate) struct Missed {
    /// How many were before it.
    pub place: usize,
    /// What it came to.
    pub why: Refusal,
}

/// Hands the command of a line to a desk, if it is a tap or a correction. The answer is its ticket, if the desk took it.
fn put_line<D: Desk>(line: &[u8], zone: &Zone<'_>, desk: &mut D) -> Option<Ticket>
    ensures put { IfSome result (IsPut D.parts desk.old desk.new (asks_of zone.now (request_of line.now))) }
    ensures none { IfNone result (IsNotPut D.parts desk.old desk.new) }
    ensures transcript { NothingIsLost (D.parts desk.old).transcript (D.parts desk.new).transcript }
{
    let Asks::Put(command) = asks_of(zone, request_of(line)) else {
        return None;
    };
    if is_question(&command) {
        return None;
    }
    desk.put(command).ok()
}

/// Hands the first lines of a text to a desk, as many as there is room for, up to one that it does not take. What stands after those that
/// it took.
fn put_lines<'a, D: Desk>(
    text: &'a [u8],
    zone: &Zone<'_>,
    desk: &mut D,
    tickets: &mut Tickets,
) -> &'a [u8]
    requires { tickets.old.items ≡ [] }
    ensures { ArePutFirst D.parts zone.now desk.old desk.new text.now result.now tickets.new.items }
{
    pay_session::laws::line_by_line();
    let mut ahead = text;
    while let Some((line, rest)) = cut(ahead) {
        if tickets.is_full() {
            return ahead;
        }
        let Some(ticket) = put_line(line, zone, desk) else {
            return ahead;
        };
        tickets.push(ticket.number());
        ahead = rest;
    }
    ahead
}

/// Gets the reply to a ticket. The answer is why a replay ends there, if it does.
fn get_one<D: Desk>(desk: &mut D, ticket: u64) -> Option<Refusal>
    requires { IsIn (D.parts desk.old).standing.waiting ticket }
    ensures got { IsGot D.parts desk.old desk.new ticket result }
    ensures waits { (D.parts desk.new).standing ≡ with_waiting (without ticket (D.parts desk.old).standing.waiting) (D.parts desk.old).standing }
    ensures none_added { (D.parts desk.new).taken ≡ (D.parts desk.old).taken }
    ensures transcript { NothingIsLost (D.parts desk.old).transcript (D.parts desk.new).transcript }
{
    match desk.get(Ticket::of(ticket)) {
        Ok(reply) => why_ended(&said(reply)),
        Err(fault) => Some(refusal_of_desk(fault)),
    }
}

/// The first that was missed, once one more came to something.
fn first_missed(missed: Option<Missed>, place: usize, why: Option<Refusal>) -> Option<Missed>
    ensures { result ≡ first_missed missed place why }
{
    match (missed, why) {
        (None, Some(why)) => Some(Missed { place, why }),
        _ => missed,
    }
}

/// Hands the first lines of a text to a desk, as many as it takes at a time, and then gets the replies to all of them.
pub(crate) fn hand_on<'a, D: Desk>(text: &'a [u8], zone: &Zone<'_>, desk: &mut D) -> Step<'a>
    ensures step { IsStepBy zone.now D.parts desk.old desk.new text.now result.lines result.left.now result.ended }
    ensures fits { result.lines + length result.left.now ≤ length text.now }
    ensures transcript { NothingIsLost (D.parts desk.old).transcript (D.parts desk.new).transcript }
    ensures same_desk { (D.parts desk.new).standing ≡ (D.parts desk.old).standing }
{
    let mut tickets = Tickets::new();
    let left = put_lines(text, zone, desk, &mut tickets);
    let mut missed = None;
    for place in 0..tickets.len() {
        let why = get_one(desk, tickets[place]);
        missed = first_missed(missed, place, why);
    }
    match missed {
        Some(Missed { place, why }) => Step {
            lines: place as u64,
            left,
            ended: Some(why),
        },
        None => Step {
            lines: tickets.len() as u64,
            left,
            ended: None,
        },
    }
}
