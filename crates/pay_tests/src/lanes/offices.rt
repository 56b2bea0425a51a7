//! Offices: that their shards work at once, that what waits is answered, and how they begin and end.
ghost use Rattle.std.specs.Prelude.{◌≡◌, ℕ, List, IsPermutation};
ghost use Rattle.pay_lanes.specs.Words.{WorkerParts, AreTogether, IsSameLane};
ghost use Rattle.pay_shard.specs.Words.{IsForShards};

use crate::given::expect_same;
use crate::lanes::gates::{Counting, Counts, gates};
use crate::lanes::given::{add_last, bus_tap, due, one_route, sent, take_last, taken};
use pay_book::Book;
use pay_lanes::{Lane, SendFault, laws};
use pay_office::{Ended, Office, ShutFault, shut, start};
use pay_rules::Fares;
use pay_shard::Command;
use std::marker::Model;
use std::process::Abort;
use std::sync::Wait;
use std::thread::Threads;
use std::time::Duration;

/// How often a gate looks at most.
pub const LOOKS: u64 = 1_000_000;
// How often an answer is looked for, a millisecond after another, before a test gives up.
const LONG: u32 = 30_000;

/// An office, and lanes that were opened with it.
#[derive(Drop)]
pub struct Begun<F: Fares> {
    /// The office.
    pub office: Office<F, Counting>,
    /// The lanes.
    pub lanes: Vec<Lane>,
}

impl<F: Fares> Model for Begun<F> {
    ghost use Rattle.std.specs.Prelude.{⊤};
    ghost use Rattle.pay_lanes.specs.Words.{AreTogether};

    ghost Value = { ⊤ };

    ghost view = { λ _. tt };

    ghost invariant = { λ b. AreTogether b.office b.lanes.items };
}

/// An office of a shard for each gate.
pub fn begin<F, R>(rt: R, lanes: u8, gates: Vec<Counting>) -> Begun<F>
where
    F: Fares + Send + 'static,
    R: Threads + Wait + Abort + AllocGlobal + Copy + Send + 'static,
{
    let shards = u8::try_from(gates.len()).ok().expect(&rt, "a count");
    let (office, lanes) = start(rt, rt.alloc(), one_route(&rt), shards, lanes, gates)
        .ok()
        .expect(&rt, "an office");
    Begun { office, lanes }
}

// Sends a command from the lane at a place: its ticket.
fn send_at<R: Abort + Wait>(
    rt: &R,
    lanes: &mut Vec<Lane>,
    place: usize,
    command: Command,
) -> Result<u64, SendFault>
    requires { (shards : ℕ) → IsForShards shards command }
    ensures { (office : List WorkerParts) → AreTogether office lanes.old.items → AreTogether office lanes.new.items }
{
    laws::still_together();
    laws::same_lanes();
    laws::same_workers();
    assert!(rt; place < lanes.len());
    sent(rt, &mut lanes[place], command)
}

// The next answer of a lane, by the ticket, and its pence, if it comes while it is looked for so often.
fn next_answer<R: Wait>(rt: &R, lane: &mut Lane, looks: u32) -> Option<(u64, Option<u64>)>
    ensures { IsSameLane lane.old lane.new }
{
    laws::same_lanes();
    for _ in 0..looks {
        let answer = taken(rt, lane);
        if answer.is_some() {
            return answer;
        }
        lane.wait(rt, Duration::from_millis(1));
    }
    None
}

// The same of the lane at a place.
fn answer_at<R: Abort + Wait>(
    rt: &R,
    lanes: &mut Vec<Lane>,
    place: usize,
    looks: u32,
) -> Option<(u64, Option<u64>)>
    ensures { (office : List WorkerParts) → AreTogether office lanes.old.items → AreTogether office lanes.new.items }
{
    laws::still_together();
    laws::same_lanes();
    laws::same_workers();
    assert!(rt; place < lanes.len());
    next_answer(rt, &mut lanes[place], looks)
}

impl<F: Fares> Begun<F> {
    // Sends a command from the lane at a place, and compares its ticket.
    fn expect_sent<R: Abort + Wait>(
        &mut self,
        rt: &R,
        place: usize,
        command: Command,
        wanted: Result<u64, SendFault>,
    )
        requires { (shards : ℕ) → IsForShards shards command }
    {
        expect_same(rt, send_at(rt, &mut self.lanes, place, command), wanted);
    }

    // Takes the next answer of the lane at a place, if it comes while it is looked for so often, and compares it.
    fn expect_taken<R: Abort + Wait>(
        &mut self,
        rt: &R,
        place: usize,
        looks: u32,
        wanted: Option<(u64, Option<u64>)>,
    ) {
        expect_same(rt, answer_at(rt, &mut self.lanes, place, looks), wanted);
    }

    /// Shuts the office.
    pub fn shut<R: Abort + Threads + Wait + AllocGlobal>(self, rt: &R) -> Ended<Counting> {
        let Begun { office, lanes } = self;
        shut(rt, office, lanes).ok().expect(rt, "all lanes")
    }
}

/// So the journal of a shard has so many items.
pub fn expect_items<R: Abort>(rt: &R, ended: &Ended<Counting>, shard: usize, count: usize) {
    let journal = ended.journals.get(shard).expect(rt, "a journal");
    expect_same(rt, journal.len(), count);
}

// So a shard was asked one command, by this lane.
fn expect_job<R: Abort>(rt: &R, ended: &Ended<Counting>, shard: usize, lane: u8, command: Command) {
    let journal = ended.journals.get(shard).expect(rt, "a journal");
    let entry = journal.get(0).expect(rt, "an item").entry;
    expect_same(
        rt,
        (journal.len(), entry.lane, entry.command),
        (1, lane, command),
    );
}

// The tap that a lane sends to the shard of its number.
fn tap_of<R: Abort>(rt: &R, lane: u8) -> Command
    ensures { (shards : ℕ) → IsForShards shards result }
{
    bus_tap(rt, u32::from(lane) + 16, 1, 0)
}

#[test]
fn sixteen_shards_work_at_once(rt: HostRuntime) {
    let counts = Counts::meeting(&rt);
    let mut begun: Begun<Book> = begin(rt, 16, gates(&rt, &counts, &[16; 16], Some(LOOKS)));
    for lane in 0..16u8 {
        let command = tap_of(&rt, lane);
        begun.expect_sent(&rt, usize::from(lane), command, Ok(0));
    }
    for lane in 0..16 {
        begun.expect_taken(&rt, lane, LONG, Some((0, Some(175))));
    }
    expect_same(&rt, counts.ran_out(), 0);
    let ended = begun.shut(&rt);
    for lane in 0..16u8 {
        expect_job(&rt, &ended, usize::from(lane), lane, tap_of(&rt, lane));
    }
}

// Asks from a lane what account 7 owes, for the tickets from one to below another.
fn ask_dues<F: Fares, R: Abort + Wait>(
    rt: &R,
    begun: &mut Begun<F>,
    lane: usize,
    from: u64,
    to: u64,
) {
    for ticket in from..to {
        let command = due(rt, 7);
        begun.expect_sent(rt, lane, command, Ok(ticket));
    }
}

// So the lane is answered under so many tickets, in order and once each, that nothing is due.
fn expect_dues<F: Fares, R: Abort + Wait>(rt: &R, begun: &mut Begun<F>, lane: usize, count: u64) {
    for ticket in 0..count {
        begun.expect_taken(rt, lane, LONG, Some((ticket, Some(0))));
    }
    begun.expect_taken(rt, lane, 1, None);
}

// One entry is popped and held by the gate, and 64 wait.
#[test]
fn what_waits_is_answered(rt: HostRuntime) {
    let counts = Counts::new(&rt);
    let mut begun: Begun<Book> = begin(rt, 5, gates(&rt, &counts, &[1], None));
    let command = due(&rt, 7);
    ask_dues(&rt, &mut begun, 0, 0, 1);
    counts.await_entry(&rt);
    ask_dues(&rt, &mut begun, 0, 1, 16);
    for lane in 1..4 {
        ask_dues(&rt, &mut begun, lane, 0, 16);
    }
    begun.expect_sent(&rt, 0, command, Err(SendFault::Window));
    ask_dues(&rt, &mut begun, 4, 0, 1);
    begun.expect_sent(&rt, 4, command, Err(SendFault::Busy));
    counts.open();
    for lane in 0..4 {
        expect_dues(&rt, &mut begun, lane, 16);
    }
    expect_dues(&rt, &mut begun, 4, 1);
    let ended = begun.shut(&rt);
    expect_items(&rt, &ended, 0, 65);
}

// Tries to shut an office whose lanes are not all there: why it is not shut, and what is given back.
fn not_shut<F: Fares, R: Abort + Threads + Wait>(
    rt: &R,
    office: Office<F, Counting>,
    lanes: Vec<Lane>,
) -> (ShutFault, Office<F, Counting>, Vec<Lane>)
    requires { AreTogether office lanes.items }
    ensures office { result.1 ≡ office }
    ensures lanes { IsPermutation lanes.items result.2.items }
{
    match shut(rt, office, lanes) {
        Ok(_) => panic!(rt; "no fault"),
        Err(back) => back,
    }
}

// Tries to shut an office without the last of its two lanes, and has all back.
fn missing_a_lane<F: Fares, R: Abort + Threads + Wait>(rt: &R, begun: Begun<F>) -> Begun<F> {
    let Begun { office, mut lanes } = begun;
    let last = take_last(rt, &mut lanes);
    let (fault, office, mut lanes) = not_shut(rt, office, lanes);
    expect_same(rt, (fault, lanes.len()), (ShutFault::LaneMissing, 1));
    add_last(rt, &mut lanes, last);
    Begun { office, lanes }
}

#[test]
fn a_lane_is_missing(rt: HostRuntime) {
    let counts = Counts::new(&rt);
    let begun: Begun<Book> = begin(rt, 2, gates(&rt, &counts, &[0], None));
    let mut begun = missing_a_lane(&rt, begun);
    for lane in 0..2u8 {
        let command = bus_tap(&rt, u32::from(lane) + 7, 1, 0);
        let lane = usize::from(lane);
        begun.expect_sent(&rt, lane, command, Ok(0));
        begun.expect_taken(&rt, lane, LONG, Some((0, Some(175))));
    }
    let ended = begun.shut(&rt);
    expect_items(&rt, &ended, 0, 2);
}
