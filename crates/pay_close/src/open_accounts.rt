//! The accounts that owe something else than what was posted for them.
ghost use Rattle.std.specs.Prelude.{◌≡◌, ◌≤◌, IfOk, IfErr, IsTrue};
ghost use Rattle.sqlite.specs.Held.{state};
ghost use Rattle.pay_day.specs.declared.limits.TheConstants.{FIRST_DAY, LAST_DAY};
ghost use Rattle.pay_shard.specs.Words.{NothingIsLost};
ghost use Rattle.pay_ledger.specs.Words.{is_of_store};
ghost use Rattle.pay_till.specs.Words.{AreQuotes};
ghost use Rattle.pay_close.specs.Gathers.{IsAskedAt};
ghost use Rattle.pay_close.specs.Opens.{is_open, open_count, IsSoOfLedger, IsOnlyRead, IsCountedAt};

use crate::fault::NotClosed;
use crate::gathered::gather;
use pay_ledger::{Ledger, LedgerFault};
use pay_rules::Quote;
use pay_shard::Desk;
use sqlite::Alter;
use std::alloc::Global;

/// Whether an account owes something else for a week than what was posted for it.
fn is_open<S: Alter>(ledger: &mut Ledger<S>, quote: &Quote) -> Result<bool, LedgerFault>
    ensures told { IfOk result (λ answer. IsSoOfLedger (state S.Store ledger.old) (state S.Store ledger.new) (λ it. answer ≡ is_open it.postings quote.now)) }
    ensures refused { IfErr result (λ fault. IsSoOfLedger (state S.Store ledger.old) (state S.Store ledger.new) (λ _. IsTrue (is_of_store fault))) }
    ensures only_read { IsOnlyRead (state S.Store ledger.old) (state S.Store ledger.new) }
{
    let posted = ledger.net(quote.account(), quote.week())?;
    Ok(posted != quote.due().pence() as i64)
}

/// Of how many quotes something else was posted.
fn count<S: Alter>(ledger: &mut Ledger<S>, quotes: &[Quote]) -> Result<u64, LedgerFault>
    ensures told { IfOk result (λ count. IsSoOfLedger (state S.Store ledger.old) (state S.Store ledger.new) (λ it. count ≡ open_count it.postings quotes.now)) }
    ensures refused { IfErr result (λ fault. IsSoOfLedger (state S.Store ledger.old) (state S.Store ledger.new) (λ _. IsTrue (is_of_store fault))) }
    ensures only_read { IsOnlyRead (state S.Store ledger.old) (state S.Store ledger.new) }
{
    let mut count: u64 = 0;
    for quote in quotes {
        if is_open(ledger, quote)? {
            count += 1;
        }
    }
    Ok(count)
}

/// Asks each shard of a desk for its quotes of a service day, counted from 1970-01-01, and says of how many of them something else was
/// posted. Nothing is posted. It is refused as a close is.
pub fn count_open<D: Desk, S: Alter>(
    alloc: Global,
    desk: &mut D,
    ledger: &mut Ledger<S>,
    day: u32,
) -> Result<u64, NotClosed>
    requires { (FIRST_DAY ≤ day) × (day ≤ LAST_DAY) }
    ensures counted { IsAskedAt D.parts desk.old desk.new (AreQuotes day (D.parts desk.old).standing.shards 0)
        (IsCountedAt D.parts desk.old (state S.Store ledger.old) (state S.Store ledger.new) result) }
    ensures only_read { IsOnlyRead (state S.Store ledger.old) (state S.Store ledger.new) }
    ensures transcript { NothingIsLost (D.parts desk.old).transcript (D.parts desk.new).transcript }
    ensures same_desk { (D.parts desk.new).standing ≡ (D.parts desk.old).standing }
{
    let gathered = gather(alloc, desk, day)?;
    let count = count(ledger, gathered.quotes())?;
    Ok(count)
}
