//! A desk over one shard, by the sample fare file: a command that is put is answered by its ticket.

ghost use Rattle.std.specs.Prelude.{◌≡◌};
ghost use Rattle.pay_shard.specs.Words.{IsForShards};

use crate::given::{MAY_BE_REFUSED, MONDAY, WAS_REFUSED, expect_same, sample, tap_at, tell};
use pay_book::Book;
use pay_rules::{Kind, Tap};
use pay_shard::{Asked, Command, Desk, LocalDesk, Reply};
use pay_tables::Editions;
use std::process::Abort;
use std::sync::Arc;

/// A desk with no accounts.
pub fn empty_desk<R: Abort + AllocGlobal>(rt: &R, editions: Editions) -> LocalDesk<Book> {
    let editions = Arc::new(rt.alloc(), editions).expect(rt, "memory");
    let none: Vec<Book> = Vec::new(rt.alloc());
    LocalDesk::new(rt.alloc(), editions, none).expect(rt, "memory")
}

/// The price of the day that a reply tells.
fn day_price(reply: &Reply) -> Option<u64> {
    match reply {
        Reply::Priced(priced) => Some(priced.day_price.pence()),
        _ => None,
    }
}

/// The reply to what is put, and none if memory runs out.
fn answered(desk: &mut LocalDesk<Book>, command: Command) -> Option<Reply>
    requires { IsForShards 1 command }
{
    match desk.put(command) {
        Ok(ticket) => match desk.get(ticket) {
            Ok(reply) => Some(reply),
            Err(_) => None,
        },
        Err(_) => None,
    }
}

/// The same, with ample memory.
pub fn reply<R: Abort>(rt: &R, desk: &mut LocalDesk<Book>, asked: Asked) -> Reply
    requires { IsForShards 1 asked }
{
    let command = Command::of(asked).expect(rt, "a command");
    answered(desk, command).expect(rt, "memory")
}

/// So a command of an account was refused for memory: nothing was taken, or an item that is marked; and the account is not there.
fn expect_refused<R: Abort>(
    rt: &R,
    desk: &LocalDesk<Book>,
    account: u32,
    before: usize,
    told: Option<&Reply>,
) {
    let journal = desk.shard().journal();
    let taken = journal.get(before).map(|item| item.refused_memory);
    expect_same(rt, desk.shard().account(account).is_none(), true);
    match told {
        None => expect_same(rt, (journal.len(), taken), (before, None)),
        Some(reply) => {
            expect_same(rt, matches!(reply, Reply::Memory), true);
            expect_same(
                rt,
                (journal.len(), taken),
                (before.saturating_add(1), Some(true)),
            );
        }
    }
}

/// A boarding of an account is answered, at the second time where memory is refused at the first.
fn expect_boarded<R: Abort + AllocGlobal>(rt: &R, desk: &mut LocalDesk<Book>, account: u32) {
    let tap = Tap {
        account,
        ..tap_at(rt, 1, 25_200, 50, Kind::Bus)
    };
    let command = Command::of(Asked::Tap(tap)).expect(rt, "a command");
    let before = desk.shard().journal().len();
    let mut told = answered(desk, command);
    if told.as_ref().and_then(day_price).is_none() {
        tell(rt, WAS_REFUSED);
        expect_refused(rt, desk, account, before, told.as_ref());
        told = answered(desk, command);
    }
    expect_same(rt, told.as_ref().and_then(day_price), Some(175));
}

// They outgrow the map of accounts several times, and the journal's first block once.
#[test]
fn a_desk_without_memory(rt: HostRuntime) {
    let mut desk = empty_desk(&rt, sample(&rt));
    for _ in 0..1_000 {
        let asked = Asked::Due {
            account: 7,
            day: MONDAY,
        };
        reply(&rt, &mut desk, asked);
    }
    tell(&rt, MAY_BE_REFUSED);
    for account in 1..41 {
        expect_boarded(&rt, &mut desk, account);
    }
}
