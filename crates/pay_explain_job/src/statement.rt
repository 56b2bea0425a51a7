//! The long statement of an account's week, by the texts of its fare file, its zone and its journals, and by a ledger.
ghost use Rattle.std.specs.Prelude.{◌≡◌, true, map as each, vec_items, IfOk, IfErr};
ghost use Rattle.pay_day.specs.Words.{IsDay};
ghost use Rattle.pay_ledger.specs.Words.{ChangesNothing};
ghost use Rattle.pay_records.specs.Words.{LeavesAsBefore};
ghost use Rattle.pay_explain_job.specs.Accounts.{given, told};
ghost use Rattle.pay_explain_job.specs.Explain.{query, IsUnexplained};
ghost use Rattle.pay_explain_job.specs.Postings.{IsUntold};
ghost use Rattle.pay_explain_job.specs.Statements.{IsStated, IsStatedWith, long_text};

use crate::accounts::Account;
use crate::own::own_account;
use pay_day::monday;
use pay_jobs::Fault;
use pay_ledger::Ledger;
use pay_long_statement::long_statement;
use pay_rules::Posting;
use sqlite::Alter;
use std::alloc::{AllocError, Global};

/// The long statement of the week that holds a service day, counted from 1970-01-01, of an account: by what it has accepted of its own
/// lines in journals, which are given as texts and replayed as for [`explain_texts`](crate::explain_texts), and by these postings.
pub fn statement_by_texts(
    alloc: Global,
    fares: &str,
    zone: &str,
    texts: &[Vec<u8>],
    account: u32,
    day: u32,
    postings: &[Posting],
) -> Result<Vec<u8>, Fault>
    requires { IsDay day }
    ensures stated { IfOk result (λ text. IsStated (given fares.now zone.now (each vec_items texts.now)) account day postings.now text.items) }
    ensures fails { IfErr result (IsUnexplained (given fares.now zone.now (each vec_items texts.now)) account) }
{
    let accepted = own_account(alloc, fares, zone, texts, account)?;
    let text = statement_of(alloc, &accepted, day, postings)?;
    Ok(text)
}

/// The same by what the account has accepted.
fn statement_of(
    alloc: Global,
    accepted: &Account,
    day: u32,
    postings: &[Posting],
) -> Result<Vec<u8>, AllocError>
    requires { IsDay day }
    ensures { IfOk result (λ text. text.items ≡ told (long_text day postings.now) accepted.now) }
{
    let Account {
        called,
        editions,
        taps,
        fixes,
        ..
    } = accepted;
    long_statement(alloc, &called.places, editions, taps, fixes, day, postings)
}

/// The same with what a ledger has of the account and the week, which is read first of all, and only read.
pub fn statement_with_ledger<S: Alter>(
    alloc: Global,
    fares: &str,
    zone: &str,
    texts: &[Vec<u8>],
    account: u32,
    day: u32,
    ledger: &mut Ledger<S>,
) -> Result<Vec<u8>, Fault>
    requires { IsDay day }
    ensures stated { IfOk result (λ text. IsStatedWith S.Store ledger.old ledger.new (given fares.now zone.now (each vec_items texts.now)) account day text.items) }
    ensures fails { IfErr result (IsUntold S.Store ledger.old ledger.new (given fares.now zone.now (each vec_items texts.now)) (query account day true)) }
    ensures unchanged { ChangesNothing S.Store ledger.old ledger.new }
    ensures survives { LeavesAsBefore S.Store ledger.old ledger.new }
{
    let from = monday(day);
    let postings = ledger.postings(account, from)?;
    statement_by_texts(alloc, fares, zone, texts, account, day, postings.as_slice())
}
