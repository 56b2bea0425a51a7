//! Sessions over a desk that refuses, is late and runs out of memory, and over a till that posts and refuses.

ghost use Rattle.std.specs.Prelude.{◌≤◌, ◌≢◌, IsTrue};
ghost use Rattle.pay_till.specs.Words.{is_of_close};
ghost use Rattle.pay_wire.specs.declared.refusal.Refusal.TheVariants as refusal;

use crate::accounts::expect_price;
use crate::desks::empty_desk;
use crate::given::{MONDAY, expect_same, london, sample, tap_at};
use crate::streams::Flushed;
use pay_account::Account;
use pay_book::Book;
use pay_money::limits::OPERATORS;
use pay_rules::{Fares, Kind, Posting, Postings};
use pay_session::{Done, session};
use pay_shard::{Command, Desk, DeskFault, LocalDesk, Reply, Ticket};
use pay_tables::Editions;
use pay_till::Till;
use pay_wire::Refusal;
use std::process::Abort;

/// Refuses its first, second and fourth command, is late with its reply to the third, and replies to the others that it is
/// out of memory. It counts the commands.
#[derive(Drop)]
struct Unwilling {
    local: LocalDesk<Book>,
    asked: u8,
}

impl Desk for Unwilling {
    ghost use Rattle.std.specs.Prelude.{⊤};
    ghost use Rattle.std.specs.Option.{option_map};
    ghost use Rattle.pay_shard.specs.Words.{commands_of, transcript_of};
    ghost use Rattle.pay_shard.specs.declared.reply.Reply.TheVariants.{Memory};

    ghost Origin = { ⊤ };

    ghost parts = { λ d. record {
      standing = record { origin = tt; shards = 1; waiting = d.local.waiting };
      taken = commands_of d.local.shard.journal;
      transcript = λ ticket. option_map (λ a. record { shard = a.shard; place = a.place; ticket = a.ticket; command = a.command; reply = Memory }) (transcript_of d.local.shard ticket);
      MayRefuse = λ fault. ⊤;
      MayBeLate = ⊤;
    } };

    fn shards(&self) -> u8 {
        1
    }

    fn put(&mut self, command: Command) -> Result<Ticket, DeskFault> {
        self.asked = self.asked.saturating_add(1);
        match self.asked {
            1 => Err(DeskFault::Busy),
            2 => Err(DeskFault::Window),
            4 => Err(DeskFault::Memory),
            _ => self.local.put(command),
        }
    }

    fn get(&mut self, ticket: Ticket) -> Result<Reply, DeskFault> {
        self.local.get(ticket)?;
        if self.asked == 3 {
            Err(DeskFault::Late)
        } else {
            Ok(Reply::Memory)
        }
    }
}

/// Posts what it holds at its first close, and refuses the others by these faults in turn. It asks its desk for nothing, so
/// that no fault is the desk's, and counts the closes.
#[derive(Drop)]
struct Prepared<'a> {
    postings: Option<Postings>,
    faults: &'a [Refusal],
    closes: usize,
}

impl Prepared<'_> {
    fn next_fault(&mut self) -> Refusal
        ensures not_of_desk { result ≢ refusal.DeskFault }
        ensures of_close { IsTrue (is_of_close result) }
    {
        match self.faults {
            [] => Refusal::NotHere,
            [fault, faults @ ..] => {
                self.faults = faults;
                match *fault {
                    Refusal::StaleQuote => Refusal::StaleQuote,
                    Refusal::Store => Refusal::Store,
                    Refusal::BadArchive => Refusal::BadArchive,
                    Refusal::ArchiveConflict => Refusal::ArchiveConflict,
                    Refusal::QuoteDiffers => Refusal::QuoteDiffers,
                    Refusal::NotOver => Refusal::NotOver,
                    Refusal::Memory => Refusal::Memory,
                    _ => Refusal::NotHere,
                }
            }
        }
    }
}

impl Till for Prepared<'_> {
    ghost use Rattle.std.specs.Prelude.{◌≡◌, [], ⊤};

    ghost Origin = { ⊤ };

    ghost origin = { λ t. tt };

    ghost Closes = { λ before day of put result after. put ≡ [] };

    ghost Opens = { λ before day of put result after. ⊤ };

    fn close<D: Desk>(&mut self, _: &mut D, _: u32) -> Result<Postings, Refusal> {
        self.closes = self.closes.saturating_add(1);
        match self.postings.take() {
            Some(postings) => Ok(postings),
            None => Err(self.next_fault()),
        }
    }

    fn open<D: Desk>(&mut self, _: &mut D, _: u32) -> Result<u64, Refusal> {
        Err(Refusal::NotHere)
    }
}

/// The faults at the closes after the first, which posts.
static FAULTS: [Refusal; 8] = [
    Refusal::NotHere,
    Refusal::StaleQuote,
    Refusal::Store,
    Refusal::BadArchive,
    Refusal::ArchiveConflict,
    Refusal::QuoteDiffers,
    Refusal::NotOver,
    Refusal::Memory,
];

/// A command for each of the desk's replies, a close for each of the till's, and the end.
const LINES: &str =
    "DUE 7 19730\nDUE 7 19730\nTAP 1 1 7 1704697200 50 BUS\nSHOW 7 19730\nSHOW 7 19730\nCLOSE 19730\nCLOSE 19730\nCLOSE 19730\nCLOSE 19730\nCLOSE 19730\nCLOSE 19730\nCLOSE 19730\nCLOSE 19730\nCLOSE 19730\nQUIT\n";

/// The replies.
const REPLIES: &str =
    "NO 30 Busy\nNO 31 Window\nNO 52 Late\nNO 90 Memory\nNO 90 Memory\nPAY 7 19730 19730 1 175 175 4=175\nPAY 8 19730 19730 1 175 -25 1=-20 4=-5\nDONE 19730 2\nNO 34 NotHere\nNO 42 StaleQuote\nNO 43 Store\nNO 45 BadArchive\nNO 46 ArchiveConflict\nNO 47 QuoteDiffers\nNO 49 NotOver\nNO 90 Memory\nBYE\n";

/// What is posted for a boarding of an account.
fn posting<R: Abort + AllocGlobal>(
    rt: &R,
    editions: &Editions,
    number: u32,
    amount: i64,
    share_amounts: [i64; OPERATORS],
) -> Posting
    requires { 1 ≤ number }
{
    let mut account: Account = Fares::new(rt.alloc(), number);
    let tap = tap_at(rt, 1, 25_200, 50, Kind::Bus);
    expect_price(rt, &mut account, editions, tap, 175);
    let quote = account.quote(editions, MONDAY).expect(rt, "memory");
    Posting {
        quote,
        amount,
        share_amounts,
    }
}

/// A till with two postings: what is charged, and what is given back.
fn till<'a, R: Abort + AllocGlobal>(rt: &R, editions: &Editions) -> Prepared<'a> {
    let mut charged = [0; OPERATORS];
    charged[3] = 175;
    let mut given_back = [0; OPERATORS];
    given_back[0] = -20;
    given_back[3] = -5;
    let mut postings = Vec::new(rt.alloc());
    postings
        .push(posting(rt, editions, 7, 175, charged))
        .expect(rt, "memory");
    postings
        .push(posting(rt, editions, 8, -25, given_back))
        .expect(rt, "memory");
    Prepared {
        postings: Some(Postings::from(postings)),
        faults: &FAULTS,
        closes: 0,
    }
}

/// A desk that was asked for nothing.
fn desk<R: Abort + AllocGlobal>(rt: &R, editions: Editions) -> Unwilling {
    Unwilling {
        local: empty_desk(rt, editions),
        asked: 0,
    }
}

#[test]
fn says_what_a_desk_and_a_till_say(rt: HostRuntime) {
    let editions = sample(&rt);
    let mut till = till(&rt, &editions);
    let mut desk = desk(&rt, editions);
    let zone = london(&rt);
    let mut writer = Flushed::new(rt.alloc(), usize::MAX);
    let mut lines = LINES.as_bytes();
    let result = session(&mut lines, &mut writer, &zone, &mut desk, &mut till);
    let wanted = Done {
        answered: 15,
        quit: true,
        lacked_memory: true,
    };
    expect_same(&rt, (result, desk.asked, till.closes), (Ok(wanted), 5, 9));
    expect_same(&rt, writer.held.as_slice(), REPLIES.as_bytes());
}
