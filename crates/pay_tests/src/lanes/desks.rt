//! Desks over a lane of an office: a reply that is late, and closes over all shards.
ghost use Rattle.std.specs.Prelude.{◌≡◌, ℕ, [], ◌∷◌, ◌++◌};
ghost use Rattle.pay_shard.specs.Words.{IsForShards, IsNoneOf, with_waiting};

use crate::given::expect_same;
use crate::lanes::gates::{Counting, Counts, gates};
use crate::lanes::given::{add_last, bus_tap, take_last};
use crate::lanes::offices::{Begun, LOOKS, begin, expect_items};
use crate::ledgers::ledger::empty_ledger;
use crate::ledgers::lines::expect_closed;
use pay_book::Book;
use pay_lanes::{Lane, laws};
use pay_ledger::Ledger;
use pay_office::{Ended, LaneDesk, Office};
use pay_rules::Fares;
use pay_shard::{Command, Desk, DeskFault, Reply, Ticket};
use sqlite::Alter;
use std::marker::Model;
use std::process::Abort;
use std::sync::Wait;
use std::thread::Threads;

// Puts a command.
fn put<D: Desk, R: Abort>(rt: &R, desk: &mut D, command: Command) -> Ticket
    requires { (shards : ℕ) → IsForShards shards command }
    ensures fresh { IsNoneOf result (D.parts desk.old).standing.waiting }
    ensures waits { (D.parts desk.new).standing ≡ with_waiting ((D.parts desk.old).standing.waiting ++ result ∷ []) (D.parts desk.old).standing }
{
    desk.put(command).ok().expect(rt, "a ticket")
}

// The pence of a reply to a tap.
fn price(reply: &Reply) -> Option<u64> {
    match reply {
        Reply::Priced(priced) => Some(priced.day_price.pence()),
        _ => None,
    }
}

// Puts a tap and gets the reply to it: the number of its ticket, and its pence.
fn ask<D: Desk, R: Abort>(
    rt: &R,
    desk: &mut D,
    command: Command,
) -> (u64, Result<Option<u64>, DeskFault>)
    requires { (shards : ℕ) → IsForShards shards command }
    ensures { (D.parts desk.new).standing ≡ (D.parts desk.old).standing }
{
    pay_shard::laws::put_then_get::<D>();
    let ticket = put(rt, desk, command);
    (ticket.number(), desk.get(ticket).map(|reply| price(&reply)))
}

// An office of one lane, and a desk over it.
#[derive(Drop)]
struct Desked<F: Fares, R: Wait + Copy> {
    office: Office<F, Counting>,
    desk: LaneDesk<R>,
}

impl<F: Fares, R: Wait + Copy> Model for Desked<F, R> {
    ghost use Rattle.std.specs.Prelude.{⊤, [], ◌∷◌};
    ghost use Rattle.pay_lanes.specs.Words.{AreTogether};

    ghost Value = { ⊤ };

    ghost view = { λ _. tt };

    ghost invariant = { λ d. AreTogether d.office (d.desk.began ∷ []) };
}

// A desk over a lane.
fn desk_over<R: Wait + Abort + AllocGlobal + Copy>(rt: R, lane: Lane) -> LaneDesk<R>
    ensures { result.began ≡ lane }
{
    assert!(rt; lane.shards() >= 1 && lane.shards() <= 16);
    LaneDesk::new(rt, rt.alloc(), lane)
}

// An office of a shard for each gate, and a desk over its one lane.
fn begin_desk<F, R>(rt: R, gates: Vec<Counting>) -> Desked<F, R>
where
    F: Fares + Send + 'static,
    R: Threads + Wait + Abort + AllocGlobal + Copy + Send + 'static,
{
    let Begun { office, mut lanes } = begin(rt, 1, gates);
    let lane = take_last(&rt, &mut lanes);
    Desked {
        office,
        desk: desk_over(rt, lane),
    }
}

impl<F: Fares, R: Threads + Wait + Abort + AllocGlobal + Copy> Desked<F, R> {
    // Puts a tap of an account at a second, and compares its ticket and the pence of the reply.
    fn expect_one(
        &mut self,
        rt: R,
        account: u32,
        second: u32,
        wanted: (u64, Result<Option<u64>, DeskFault>),
    ) {
        let command = bus_tap(&rt, account, 1, second);
        expect_same(&rt, ask(&rt, &mut self.desk, command), wanted);
    }

    // Answers lines over the desk and a ledger, and compares the replies.
    fn expect_lines<S: Alter>(
        &mut self,
        rt: R,
        ledger: &mut Ledger<S>,
        lines: &str,
        answered: u128,
        replies: &str,
    ) {
        expect_closed(&rt, &mut self.desk, ledger, lines, answered, replies);
    }

    // Shuts the office.
    fn shut(self, rt: R) -> Ended<Counting> {
        laws::still_together();
        laws::same_workers();
        let Desked { office, desk } = self;
        let mut lanes = Vec::new(rt.alloc());
        add_last(&rt, &mut lanes, desk.into_lane());
        let begun = Begun { office, lanes };
        begun.shut(&rt)
    }
}

// The shard answers both taps, the first when its reply is not waited for any more.
#[test]
fn a_late_reply(rt: HostRuntime) {
    let counts = Counts::new(&rt);
    let mut desked: Desked<Book, HostRuntime> = begin_desk(rt, gates(&rt, &counts, &[1], None));
    desked.expect_one(rt, 7, 0, (0, Err(DeskFault::Late)));
    counts.open();
    desked.expect_one(rt, 7, 7_200, (1, Ok(Some(350))));
    let ended = desked.shut(rt);
    expect_items(&rt, &ended, 0, 2);
}

/// A boarding for each shard, and a close. The fare of the route is operator 4's.
const BOARDINGS: &str = "TAP 1 1 7 1704697200 50 BUS
TAP 1 1 8 1704697200 50 BUS
CLOSE 19730
";

const BOARDINGS_REPLIES: &str = "OK 19730 175 175
OK 19730 175 175
PAY 7 19730 19730 1 175 175 4=175
PAY 8 19730 19730 1 175 175 4=175
DONE 19730 2
";

// The gate of shard 0 holds its Quotes until those of shard 1 have come to theirs.
#[test]
fn all_shards_are_asked_before_one_has_answered(rt: HostRuntime) {
    let counts = Counts::meeting(&rt);
    let mut ledger = empty_ledger(&rt);
    let gates = gates(&rt, &counts, &[2, 0], Some(LOOKS));
    let mut desked: Desked<Book, HostRuntime> = begin_desk(rt, gates);
    desked.expect_lines(rt, &mut ledger, "CLOSE 19730\n", 1, "DONE 19730 0\n");
    desked.expect_lines(rt, &mut ledger, BOARDINGS, 3, BOARDINGS_REPLIES);
    expect_same(&rt, counts.ran_out(), 0);
    desked.shut(rt);
}
