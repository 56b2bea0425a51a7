//! A turn without memory.

use crate::given::{MAY_BE_REFUSED, WAS_REFUSED, expect_same, tell};
use crate::lanes::given::{bus_tap, opened, pence, sent};
use pay_book::Book;
use pay_lanes::{Lane, OpenGate, Opened, Turn, Worker};
use pay_rules::Fares;
use pay_shard::Reply;
use std::process::Abort;
use std::sync::Wait;

// Sends the tap that gets a ticket: each is made two hours after the one before.
fn send_tap<R: Abort + Wait>(rt: &R, lane: &mut Lane, ticket: u32) {
    let command = bus_tap(rt, 7, 1, ticket.saturating_mul(7_200));
    expect_same(rt, sent(rt, lane, command), Ok(u64::from(ticket)));
}

// Takes turns until an entry is answered, which then stands at this place of the journal: the first turn, or the second, where
// memory for the first is refused. How many turns were without memory.
fn turns_without_memory<F: Fares, R: Abort + AllocGlobal + Wait>(
    rt: &R,
    worker: &mut Worker<F, OpenGate>,
    place: usize,
) -> u64 {
    let turn = worker.turn(rt);
    if turn != Turn::Starved {
        expect_same(rt, turn, Turn::Did(place));
        return 0;
    }
    tell(rt, WAS_REFUSED);
    expect_same(rt, worker.shard().journal().len(), place);
    expect_same(rt, worker.turn(rt), Turn::Did(place));
    1
}

// Takes the answer to a ticket. Each tap that is accepted pays 175 pence, since it is more than an hour after the one before.
// How many taps are accepted then: all that were, and this one, if memory for it is not refused.
fn accepted_then<R: Abort + AllocGlobal + Wait>(
    rt: &R,
    lane: &mut Lane,
    ticket: u64,
    accepted: u64,
) -> u64 {
    let answer = lane.take(rt).expect(rt, "an answer");
    expect_same(rt, (answer.ticket, answer.place), (ticket, ticket as usize));
    if matches!(&answer.reply, Reply::Memory) {
        tell(rt, WAS_REFUSED);
        return accepted;
    }
    let accepted = accepted.saturating_add(1);
    expect_same(rt, pence(&answer), Some(accepted.saturating_mul(175)));
    accepted
}

// At most one allocation fails, so at most one turn or one tap is without memory.
fn starves_once<F: Fares, R: Abort + AllocGlobal + Wait>(
    rt: &R,
    worker: &mut Worker<F, OpenGate>,
    lane: &mut Lane,
) {
    let (mut starved, mut accepted) = (0u64, 0u64);
    for ticket in 0..3 {
        send_tap(rt, lane, ticket);
    }
    for place in 0..3 {
        starved = starved.saturating_add(turns_without_memory(rt, worker, place));
    }
    for ticket in 0..3 {
        accepted = accepted_then(rt, lane, ticket, accepted);
    }
    expect_same(rt, lane.take(rt).is_none(), true);
    assert!(rt; accepted >= starved.saturating_add(2));
}

#[test]
fn a_turn_without_memory(rt: HostRuntime) {
    let Opened {
        mut workers,
        mut lanes,
    } = opened::<Book, HostRuntime>(&rt, 1, 1);
    let worker = workers.first_mut().expect(&rt, "a worker");
    let lane = lanes.first_mut().expect(&rt, "a lane");
    tell(&rt, MAY_BE_REFUSED);
    starves_once(&rt, worker, lane);
}
