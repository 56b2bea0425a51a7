//! What tests are given: a fare file of one bus route, commands, and lanes and workers.

ghost use Rattle.std.specs.Prelude.{◌≡◌, ℕ, [], ◌∷◌, ◌++◌};
ghost use Rattle.pay_lanes.specs.Words.{AreTogether, IsSameLane};
ghost use Rattle.pay_shard.specs.Words.{IsForShards};

use crate::given::{MONDAY, expect_same};
use pay_day::Moment;
use pay_editions::read_editions;
use pay_lanes::{Lane, OpenGate, Opened, SendFault, open};
use pay_rules::{Fares, Kind, Tap};
use pay_shard::{Answer, Asked, Command, Reply};
use pay_tables::Editions;
use std::process::Abort;
use std::sync::{Arc, Wait};

const ONE_ROUTE: &str = "zones = 1
minutes = [90]
single = [{ from = 1, to = 1, peak = 280, off = 270 }]
route = [{ place = 50, operator = 4 }]

[rules]
bus = 175
maximum = 860
hopper = 3600
same_free = 120
same_limit = 1800
";

/// The editions of the fare file.
pub fn one_route<R: Abort + AllocGlobal>(rt: &R) -> Arc<Editions> {
    let editions = read_editions(rt.alloc(), ONE_ROUTE).expect(rt, "the fare file");
    Arc::new(rt.alloc(), editions).expect(rt, "memory")
}

/// So many gates.
pub fn gates<R: Abort + AllocGlobal>(rt: &R, count: u8) -> Vec<OpenGate> {
    let mut gates = Vec::new(rt.alloc());
    for _ in 0..count {
        gates.push(OpenGate).expect(rt, "memory");
    }
    gates
}

/// So many shards and lanes.
pub fn opened<F: Fares, R: Abort + AllocGlobal>(
    rt: &R,
    shards: u8,
    lanes: u8,
) -> Opened<F, OpenGate>
    ensures { AreTogether result.workers.items result.lanes.items }
{
    let gates = gates(rt, shards);
    open(rt.alloc(), one_route(rt), shards, lanes, gates)
        .ok()
        .expect(rt, "memory")
}

/// A bus tap of an account by a reader, so many seconds after 08:00:00 of the Monday, when London's clocks show UTC.
pub fn bus_tap<R: Abort>(rt: &R, account: u32, reader: u16, second: u32) -> Command
    ensures { (shards : ℕ) → IsForShards shards result }
{
    let second = second.saturating_add(28_800);
    let utc = u64::from(MONDAY) * 86_400 + u64::from(second);
    let tap = Tap {
        account,
        reader,
        seq: second,
        stamp: Moment::from_parts(utc, MONDAY, second).expect(rt, "a moment"),
        place: 50,
        kind: Kind::Bus,
    };
    Command::of(Asked::Tap(tap)).expect(rt, "a command")
}

/// What an account owes through the Monday.
pub fn due<R: Abort>(rt: &R, account: u32) -> Command
    ensures { (shards : ℕ) → IsForShards shards result }
{
    let asked = Asked::Due {
        account,
        day: MONDAY,
    };
    Command::of(asked).expect(rt, "a command")
}

/// The pence of an answer: the price of the day, or what is due.
pub fn pence(answer: &Answer) -> Option<u64> {
    match &answer.reply {
        Reply::Priced(priced) => Some(priced.day_price.pence()),
        Reply::Due(owed) => Some(owed.quote().due().pence()),
        _ => None,
    }
}

/// Sends a command from a lane: its ticket.
pub fn sent<R: Abort + Wait>(rt: &R, lane: &mut Lane, command: Command) -> Result<u64, SendFault>
    requires { (shards : ℕ) → IsForShards shards command }
    ensures { IsSameLane lane.old lane.new }
{
    assert!(rt; lane.shards() > 0);
    lane.send(rt, command).map(|ticket| ticket.number())
}

/// Takes an answer, by the ticket, and its pence.
pub fn taken<R: Wait>(rt: &R, lane: &mut Lane) -> Option<(u64, Option<u64>)>
    ensures { IsSameLane lane.old lane.new }
{
    lane.take(rt).map(|answer| (answer.ticket, pence(&answer)))
}

/// Takes the last one out of a list.
pub fn take_last<T, R: Abort>(rt: &R, list: &mut Vec<T>) -> T
    ensures { list.old.items ≡ list.new.items ++ result ∷ [] }
{
    list.pop().expect(rt, "the last one")
}

/// Puts one behind the others of a list.
pub fn add_last<T: Drop, R: Abort>(rt: &R, list: &mut Vec<T>, one: T)
    ensures { list.new.items ≡ list.old.items ++ one ∷ [] }
{
    list.push(one).expect(rt, "memory");
}
