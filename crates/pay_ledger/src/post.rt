ghost use Rattle.std.specs.Prelude.{◌≡◌, false, Ok, IsTrue, IfErr};
ghost use Rattle.std.specs.List.{AllByRecursion};
ghost use Rattle.pay_rules.specs.QuoteParts.{IsQuote};
ghost use Rattle.pay_postings.specs.Words.{posted, lists, with_batch};
ghost use Rattle.pay_ledger.specs.Faults.{is_of_store};
ghost use Rattle.pay_records.specs.Words.{LeavesAsBeforeOr, Answers, AnswersInside};
ghost use Rattle.pay_ledger.specs.Steps.{IsStep, BecomesPosted, Posts, MayLeave};
ghost use Rattle.pay_ledger.specs.Calls.{ChangesNothingIfRefused, GrowsInside, FindsInLedger, RefusesOpenAlone, IsJudged};

use crate::crashes::settled;
use crate::fault::LedgerFault;
use crate::last::{LastPosting, last_of};
use crate::read::{ask, read_quoted, read_sets};
use crate::write::{write_fixes, write_postings, write_taps};
use pay_postings::{LedgerAccounts, PostingBatch};
use pay_rules::{Posting, Quote, Sets};
use sqlite::{Alter, Connection, Transaction};
use std::alloc::Global;

/// The numbers of a quote are in their ranges, as each of them tells.
fn is_quote(quote: &Quote)
    ensures { IsQuote quote.now }
{
    let _numbers = (quote.account(), quote.week(), quote.through());
    let _due = (quote.version(), quote.due(), quote.edition());
    let _shares = quote.shares();
}

/// And so are those of all quotes.
fn are_quotes(quotes: &[Quote])
    ensures { AllByRecursion IsQuote quotes.now }
{
    for quote in quotes {
        is_quote(quote);
    }
}

/// What posting quotes and archiving sets adds to the ledger.
fn batch_for<S: Alter>(
    alloc: Global,
    tx: &mut Transaction<'_, S>,
    quotes: &[Quote],
    sets: &[Sets],
) -> Result<PostingBatch, LedgerFault>
    ensures step { IsStep S.Store tx.old.conn tx.new.conn result }
    ensures posts { FindsInLedger S.Store tx.old.conn.now tx.new.conn.now result (λ ledger batch. posted ledger quotes.now sets.now ≡ Ok (batch.given.items, with_batch ledger (lists batch))) }
    ensures judged { IsJudged S.Store tx.old.conn.now tx.new.conn.now result quotes.now sets.now }
{
    pay_postings::laws::postings_back();
    let mut accounts = LedgerAccounts::new(alloc);
    read_quoted(alloc, tx, &mut accounts, quotes)?;
    read_sets(alloc, tx, &mut accounts, sets)?;
    Ok(accounts.post(alloc, quotes, sets)?)
}

/// Writes what is to be added: the number of the last posting, if there is one.
fn write_batch<S: Alter>(
    alloc: Global,
    tx: &mut Transaction<'_, S>,
    batch: &PostingBatch,
) -> Result<Option<i64>, LedgerFault>
    ensures step { IsStep S.Store tx.old.conn tx.new.conn result }
    ensures writes { GrowsInside S.Store tx.old.conn.now tx.new.conn.now result (λ ledger. with_batch ledger (lists batch.now)) }
    ensures of_store { IfErr result (λ fault. IsTrue (is_of_store fault)) }
{
    let id = write_postings(alloc, tx, &batch.postings)?;
    write_taps(tx, &batch.taps)?;
    write_fixes(tx, &batch.fixes)?;
    Ok(id)
}

/// Adds what posting quotes and archiving sets comes to, in a transaction that is not committed yet.
fn add_batch<S: Alter>(
    alloc: Global,
    tx: &mut Transaction<'_, S>,
    quotes: &[Quote],
    sets: &[Sets],
    last: &mut Option<LastPosting>,
) -> Result<Vec<Posting>, LedgerFault>
    ensures step { IsStep S.Store tx.old.conn tx.new.conn result }
    ensures posts { AnswersInside S.Store tx.old.conn.now tx.new.conn.now result (λ old new given. BecomesPosted old.now new.now (quotes.now, sets.now) given.items) }
    ensures judged { IsJudged S.Store tx.old.conn.now tx.new.conn.now result quotes.now sets.now }
{
    are_quotes(quotes);
    pay_postings::laws::paid();
    let batch = batch_for(alloc, tx, quotes, sets)?;
    let id = write_batch(alloc, tx, &batch)?;
    *last = last_of(&batch.postings, id, *last);
    Ok(batch.given)
}

/// Posts quotes and archives sets in a transaction, which is not committed yet. A database that does not answer is not read.
fn post_in<S: Alter>(
    alloc: Global,
    tx: &mut Transaction<'_, S>,
    quotes: &[Quote],
    sets: &[Sets],
    last: &mut Option<LastPosting>,
) -> Result<Vec<Posting>, LedgerFault>
    ensures step { IsStep S.Store tx.old.conn tx.new.conn result }
    ensures posts { AnswersInside S.Store tx.old.conn.now tx.new.conn.now result (λ old new given. BecomesPosted old.now new.now (quotes.now, sets.now) given.items) }
    ensures judged { IsJudged S.Store tx.old.conn.now tx.new.conn.now result quotes.now sets.now }
    ensures of_open { RefusesOpenAlone S.Store tx.old.conn.now tx.new.conn.now result }
{
    ask(tx)?;
    add_batch(alloc, tx, quotes, sets, last)
}

/// Posts quotes, and archives sets, in one transaction. Once it is committed the last posting that was made is noted, if any was.
pub(crate) fn post<S: Alter>(
    alloc: Global,
    conn: &mut Connection<S>,
    quotes: &[Quote],
    sets: &[Sets],
    last: &mut Option<LastPosting>,
) -> Result<Vec<Posting>, LedgerFault>
    requires { conn.old.in_transaction ≡ false }
    ensures autocommit { conn.new.in_transaction ≡ false }
    ensures posts { Answers S.Store conn.old conn.new result (λ old new given. Posts old new quotes.now sets.now given.items) }
    ensures judged { IsJudged S.Store conn.old conn.new result quotes.now sets.now }
    ensures of_open { RefusesOpenAlone S.Store conn.old conn.new result }
    ensures unchanged { ChangesNothingIfRefused S.Store conn.old conn.new result }
    ensures survives { LeavesAsBeforeOr S.Store conn.old conn.new (λ old. MayLeave old quotes.now sets.now) }
{
    let _ = conn.is_autocommit();
    let mut tx = conn.transaction();
    let mut made = *last;
    let given = post_in(alloc, &mut tx, quotes, sets, &mut made)?;
    tx.commit()?;
    *last = made;
    settled(conn);
    Ok(given)
}
