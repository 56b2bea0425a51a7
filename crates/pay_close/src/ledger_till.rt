//! The close of a day over a desk and a ledger.
ghost use Rattle.std.specs.Prelude.{◌≡◌, ◌≤◌, OnOk};
ghost use Rattle.sqlite.specs.Held.{state};
ghost use Rattle.sqlite.specs.State.{HasCleanDisk};
ghost use Rattle.pay_day.specs.declared.limits.TheConstants.{FIRST_DAY, LAST_DAY};
ghost use Rattle.pay_shard.specs.Words.{NothingIsLost};
ghost use Rattle.pay_ledger.specs.Words.{IsOnDisk};
ghost use Rattle.pay_till.specs.Words.{AreQuotes};
ghost use Rattle.pay_close.specs.Closes.{IsClosedSoAt};
ghost use Rattle.pay_close.specs.Gathers.{IsAskedAt};

use crate::fault::NotClosed;
use crate::gathered::gather;
use crate::open_accounts::count_open;
use crate::watch::Watch;
use pay_ledger::Ledger;
use pay_rules::Postings;
use pay_shard::Desk;
use pay_till::Till;
use pay_wire::Refusal;
use sqlite::Alter;
use std::alloc::Global;

/// Closes a service day, counted from 1970-01-01: asks each shard of a desk for its quotes, posts these in ascending order of
/// account, and archives what they were priced by, all of it or nothing. The posting of each quote.
pub fn close<D: Desk, S: Alter>(
    alloc: Global,
    desk: &mut D,
    ledger: &mut Ledger<S>,
    day: u32,
) -> Result<Postings, NotClosed>
    requires { (FIRST_DAY ≤ day) × (day ≤ LAST_DAY) }
    ensures closed { IsAskedAt D.parts desk.old desk.new (AreQuotes day (D.parts desk.old).standing.shards 0)
        (IsClosedSoAt D.parts desk.old (state S.Store ledger.old) (state S.Store ledger.new) result) }
    ensures lasts { HasCleanDisk (state S.Store ledger.new) → OnOk result (IsOnDisk (state S.Store ledger.new)) }
    ensures transcript { NothingIsLost (D.parts desk.old).transcript (D.parts desk.new).transcript }
    ensures same_desk { (D.parts desk.new).standing ≡ (D.parts desk.old).standing }
{
    let gathered = gather(alloc, desk, day)?;
    let given = ledger.post(gathered.quotes(), gathered.sets())?;
    Ok(Postings::from(given))
}

/// A till that closes days into a ledger, if its watch lets it.
#[derive(Drop)]
pub struct LedgerTill<'a, S: Alter, W: Watch> {
    /// Where the memory for what is gathered comes from.
    pub alloc: Global,
    /// The ledger that is posted to.
    pub ledger: &'a mut Ledger<S>,
    /// Who watches what is closed.
    pub watch: &'a mut W,
}

impl<'a, S: Alter, W: Watch> LedgerTill<'a, S, W> {
    /// A till over a ledger.
    pub fn new(alloc: Global, ledger: &'a mut Ledger<S>, watch: &'a mut W) -> LedgerTill<'a, S, W>
        ensures same_ledger { result.ledger.ghost_name ≡ ledger.entry.ghost_name }
        ensures ledger { result.ledger.now ≡ ledger.old }
    {
        LedgerTill {
            alloc,
            ledger,
            watch,
        }
    }
}

impl<'a, S: Alter, W: Watch> Till for LedgerTill<'a, S, W> {
    ghost use Rattle.std.specs.Borrow.{GName};
    ghost use Rattle.sqlite.specs.Held.{state};
    ghost use Rattle.pay_close.specs.Closes.{Closes};
    ghost use Rattle.pay_close.specs.Opens.{Opens};

    ghost Origin = { GName };

    ghost origin = { λ t. t.ledger.ghost_name };

    ghost Closes = { λ before day of put result after. Closes (state S.Store before.ledger.now) (state S.Store after.ledger.now) of put result };

    ghost Opens = { λ before day of put result after. Opens (state S.Store before.ledger.now) (state S.Store after.ledger.now) of put result };

    fn close<D: Desk>(&mut self, desk: &mut D, day: u32) -> Result<Postings, Refusal> {
        if !self.watch.may_close(day) {
            return Err(Refusal::NotOver);
        }
        match close(self.alloc, desk, self.ledger, day) {
            Ok(postings) => {
                self.watch.closed(self.ledger.last_posting());
                Ok(postings)
            }
            Err(why) => {
                self.watch.not_closed(day, &why);
                Err(Refusal::from(why))
            }
        }
    }

    fn open<D: Desk>(&mut self, desk: &mut D, day: u32) -> Result<u64, Refusal> {
        match count_open(self.alloc, desk, self.ledger, day) {
            Ok(count) => Ok(count),
            Err(why) => Err(Refusal::from(why)),
        }
    }
}
