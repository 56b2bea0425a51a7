//! Lines that are answered over a desk and a ledger. What they answer is shown by `tests/program.py`.

ghost use Rattle.std.specs.Prelude.{◌≡◌};

use crate::given::{expect_same, sample_in_london};
use pay_book::Book;
use pay_close::{LedgerTill, NoWatch};
use pay_ledger::Ledger;
use pay_rules::Fares;
use pay_session::{Done, session};
use pay_shard::{Desk, LocalDesk};
use sqlite::Alter;
use std::process::Abort;

/// Answers lines by a desk and a till that closes into a ledger, and compares the replies.
pub fn expect_closed<R: Abort + AllocGlobal, D: Desk, S: Alter>(
    rt: &R,
    desk: &mut D,
    ledger: &mut Ledger<S>,
    lines: &str,
    answered: u128,
    replies: &str,
)
    ensures { (D.parts desk.new).standing ≡ (D.parts desk.old).standing }
{
    let mut watch = NoWatch;
    let mut till = LedgerTill::new(rt.alloc(), ledger, &mut watch);
    let mut reader = lines.as_bytes();
    let mut writer = Vec::new(rt.alloc());
    let (_, zone) = sample_in_london(rt);
    let done = session(&mut reader, &mut writer, &zone, desk, &mut till);
    let wanted = Done {
        answered,
        quit: false,
        lacked_memory: false,
    };
    expect_same(rt, done, Ok(wanted));
    expect_same(rt, writer.as_slice(), replies.as_bytes());
}

/// A desk over one shard without accounts.
fn empty_desk<F: Fares, R: Abort + AllocGlobal>(rt: &R) -> LocalDesk<F> {
    let (editions, _) = sample_in_london(rt);
    LocalDesk::new(rt.alloc(), editions, Vec::new(rt.alloc()))
        .ok()
        .expect(rt, "a desk")
}

/// Answers lines over one shard without accounts and a ledger, and compares the replies.
pub fn expect_run<R: Abort + AllocGlobal, S: Alter>(
    rt: &R,
    ledger: &mut Ledger<S>,
    lines: &str,
    answered: u128,
    replies: &str,
) {
    let mut desk: LocalDesk<Book> = empty_desk(rt);
    expect_closed(rt, &mut desk, ledger, lines, answered, replies);
}
