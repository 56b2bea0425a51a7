//! What a gate is told of what waits.

use crate::given::expect_same;
use crate::lanes::gates::{Counting, Counts, gates};
use crate::lanes::given::{bus_tap, due, one_route, sent};
use pay_book::Book;
use pay_lanes::{Lane, Opened, Worker, open};
use pay_rules::Fares;
use std::process::Abort;
use std::sync::Wait;

// Of four commands two open an account, one asks of a third, and one is again of the first. After each turn the gate was told of
// accounts and of entries that wait.
fn expect_loads<F: Fares, R: Abort + Wait>(
    rt: &R,
    worker: &mut Worker<F, Counting>,
    lane: &mut Lane,
    counts: &Counts,
) {
    let _ = sent(rt, lane, bus_tap(rt, 7, 1, 0));
    let _ = sent(rt, lane, bus_tap(rt, 9, 2, 0));
    let _ = sent(rt, lane, due(rt, 11));
    let _ = sent(rt, lane, bus_tap(rt, 7, 1, 7_200));
    for wanted in [(1, 3), (2, 2), (2, 1), (2, 0)] {
        let _ = worker.turn(rt);
        expect_same(rt, counts.load(), wanted);
    }
}

#[test]
fn a_gate_is_told_the_load(rt: HostRuntime) {
    let counts = Counts::new(&rt);
    let Opened {
        mut workers,
        mut lanes,
    } = open(
        rt.alloc(),
        one_route(&rt),
        1,
        1,
        gates(&rt, &counts, &[0], Some(1)),
    )
    .ok()
    .expect(&rt, "memory");
    let worker: &mut Worker<Book, Counting> = workers.first_mut().expect(&rt, "a worker");
    let lane = lanes.first_mut().expect(&rt, "a lane");
    expect_loads(&rt, worker, lane, &counts);
}
