//! What a clerk is shown before an account is corrected, by the texts of its fare file, its zone and its journals.
ghost use Rattle.std.specs.Prelude.{◌≡◌, ◌≤◌, map as each, vec_items, IfOk, IfErr};
ghost use Rattle.std.specs.String.{string_bytes};
ghost use Rattle.pay_day.specs.Words.{IsDay};
ghost use Rattle.pay_rules.specs.State.{accepted_of};
ghost use Rattle.pay_shard.specs.Words.{state_now};
ghost use Rattle.pay_explain_job.specs.Accounts.{given, told};
ghost use Rattle.pay_explain_job.specs.Corrections.{IsChoice, IsOwed, choice_text, owed_of};
ghost use Rattle.pay_explain_job.specs.Explain.{IsNotExplained};

use crate::accounts::{Account, account_by};
use pay_fix_page::{Owed, choices_page};
use pay_jobs::{Fault, begin_service, replayed_texts};
use pay_rules::Fares;
use pay_run::replayed_lines;
use pay_shard::Shard;
use pay_tables::Editions;
use std::alloc::{AllocError, Global};

/// The page of what can be corrected of an account, with the taps of a service day: by what it has accepted of journals.
pub fn choice_by_texts(
    alloc: Global,
    fares: &str,
    zone: &str,
    texts: &[Vec<u8>],
    account: u32,
    day: u32,
) -> Result<String, Fault>
    requires { IsDay day }
    ensures page { IfOk result (λ text. IsChoice (given fares.now zone.now (each vec_items texts.now)) account day (string_bytes text)) }
    ensures fails { IfErr result (IsNotExplained (given fares.now zone.now (each vec_items texts.now))) }
{
    let accepted = account_by(alloc, fares, zone, texts, account)?;
    let page = choice_of(alloc, &accepted, account, day)?;
    Ok(page)
}

/// The same by what the account has accepted.
fn choice_of(
    alloc: Global,
    accepted: &Account,
    account: u32,
    day: u32,
) -> Result<String, AllocError>
    requires { IsDay day }
    ensures { IfOk result (λ text. string_bytes text ≡ told (choice_text account day) accepted.now) }
{
    let Account {
        called,
        taps,
        fixes,
        ..
    } = accepted;
    choices_page(alloc, &called.places, taps, fixes, account, day)
}

/// What a service day of an account costs, and what is due of its week through that day, after Credits: by what the account has accepted of
/// journals.
pub fn owed_by_texts(
    alloc: Global,
    fares: &str,
    zone: &str,
    texts: &[Vec<u8>],
    account: u32,
    day: u32,
) -> Result<Owed, Fault>
    requires first { 1 ≤ account }
    requires is_day { IsDay day }
    ensures owed { IfOk result (IsOwed (given fares.now zone.now (each vec_items texts.now)) account day) }
    ensures fails { IfErr result (IsNotExplained (given fares.now zone.now (each vec_items texts.now))) }
{
    pay_run::laws::all_else_stays();
    let read = begin_service(alloc, fares, zone)?;
    let replayed = replayed_texts(alloc, read.editions, &read.zone, texts, 0)?;
    // What was replayed is what the shard has.
    replayed_lines(&replayed.0);
    let owed = owed_in(alloc, replayed.0.shard(), account, day)?;
    Ok(owed)
}

/// The same by a shard that has accepted them.
fn owed_in<F: Fares>(
    alloc: Global,
    shard: &Shard<F>,
    account: u32,
    day: u32,
) -> Result<Owed, AllocError>
    requires first { 1 ≤ account }
    requires is_day { IsDay day }
    ensures { IfOk result (λ owed. owed ≡ owed_of shard.now.editions (accepted_of (state_now shard.now) account) account day) }
{
    let editions = shard.editions();
    match shard.account(account) {
        Some(it) => owed_by(editions, it, day),
        None => owed_by(editions, &F::new(alloc, account), day),
    }
}

/// The same by an account.
fn owed_by<F: Fares>(editions: &Editions, it: &F, day: u32) -> Result<Owed, AllocError>
    requires first { 1 ≤ F.account it.now }
    requires is_day { IsDay day }
    requires priced_by { F.IsPricedBy editions.now it.now }
    ensures { IfOk result (λ owed. owed ≡ owed_of editions.now (F.accepted it.now) (F.account it.now) day) }
{
    let shown = it.show(editions, day)?;
    let quote = it.quote(editions, day)?;
    Ok(Owed {
        day: shown.day_price,
        week: quote.due(),
    })
}
