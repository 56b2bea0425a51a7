//! The pages of an account, by the texts of its fare file, its zone and its journals.
ghost use Rattle.std.specs.Prelude.{◌≡◌, map as each, vec_items, IfOk, IfErr};
ghost use Rattle.std.specs.String.{string_bytes};
ghost use Rattle.pay_day.specs.Words.{IsDay};
ghost use Rattle.pay_explain_job.specs.Accounts.{given, told};
ghost use Rattle.pay_explain_job.specs.Explain.{query, IsNotExplained};
ghost use Rattle.pay_explain_job.specs.Pages.{beside, json_text, page_text, IsJson, IsPaged};
ghost use Rattle.pay_json.specs.Posted.{posted_members};
ghost use Rattle.pay_page.specs.Posted.{posted_part};

use crate::accounts::{Account, account_by};
use pay_jobs::Fault;
use pay_json::{day_json, week_json};
use pay_page::{Posted, PostedWeek, day_page, week_page};
use std::alloc::{AllocError, Global};

/// The page of a service day of an account, counted from 1970-01-01, or of its week through that day: by what the account has accepted
/// of journals, which are given as texts and replayed one after the other. The fare file is read before the zone, and both before the
/// journals. A line that is not accepted is told by the number of its journal, from 0 on. Where `corrects` says that accounts may be corrected,
/// the page links to that; and that of a week tells what was posted for it.
pub fn page_by_texts(
    alloc: Global,
    fares: &str,
    zone: &str,
    texts: &[Vec<u8>],
    account: u32,
    day: u32,
    week: bool,
    corrects: bool,
    posted: &Posted,
) -> Result<String, Fault>
    requires { IsDay day }
    ensures page { IfOk result (λ text. IsPaged (given fares.now zone.now (each vec_items texts.now)) (query account day week) (beside corrects posted.now) (string_bytes text)) }
    ensures fails { IfErr result (IsNotExplained (given fares.now zone.now (each vec_items texts.now))) }
{
    let accepted = account_by(alloc, fares, zone, texts, account)?;
    let page = page_of(alloc, &accepted, account, day, week, corrects, posted)?;
    Ok(page)
}

/// The same by what the account has accepted.
fn page_of(
    alloc: Global,
    accepted: &Account,
    account: u32,
    day: u32,
    week: bool,
    corrects: bool,
    posted: &Posted,
) -> Result<String, AllocError>
    requires { IsDay day }
    ensures { IfOk result (λ text. string_bytes text ≡ told (page_text corrects (posted_part accepted.now.called.operators accepted.now.version posted.now) (query account day week)) accepted.now) }
{
    let Account {
        called,
        editions,
        taps,
        fixes,
        ..
    } = accepted;
    if week {
        let posted = posted_of(accepted, posted);
        week_page(
            alloc, corrects, &posted, editions, taps, fixes, account, day,
        )
    } else {
        day_page(
            alloc,
            corrects,
            &called.places,
            editions,
            taps,
            fixes,
            account,
            day,
        )
    }
}

/// What was posted, and what it is told with.
fn posted_of<'a>(accepted: &'a Account, posted: &'a Posted) -> PostedWeek<'a>
    ensures posted { result.posted.now ≡ posted.now }
    ensures operators { result.operators.now ≡ accepted.now.called.operators }
    ensures version { result.version ≡ accepted.now.version }
{
    PostedWeek {
        posted,
        operators: &accepted.called.operators,
        version: accepted.version,
    }
}

/// The same for programs, a JSON document.
pub fn json_by_texts(
    alloc: Global,
    fares: &str,
    zone: &str,
    texts: &[Vec<u8>],
    account: u32,
    day: u32,
    week: bool,
    posted: &Posted,
) -> Result<String, Fault>
    requires { IsDay day }
    ensures json { IfOk result (λ text. IsJson (given fares.now zone.now (each vec_items texts.now)) (query account day week) posted.now (string_bytes text)) }
    ensures fails { IfErr result (IsNotExplained (given fares.now zone.now (each vec_items texts.now))) }
{
    let accepted = account_by(alloc, fares, zone, texts, account)?;
    let document = json_of(alloc, &accepted, account, day, week, posted)?;
    Ok(document)
}

/// The same by what the account has accepted.
fn json_of(
    alloc: Global,
    accepted: &Account,
    account: u32,
    day: u32,
    week: bool,
    posted: &Posted,
) -> Result<String, AllocError>
    requires { IsDay day }
    ensures { IfOk result (λ text. string_bytes text ≡ told (json_text (posted_members accepted.now.called.operators accepted.now.version posted.now) (query account day week)) accepted.now) }
{
    let Account {
        called,
        editions,
        taps,
        fixes,
        ..
    } = accepted;
    let currency = called.currency.as_str();
    if week {
        let posted = posted_of(accepted, posted);
        week_json(
            alloc, &posted, currency, editions, taps, fixes, account, day,
        )
    } else {
        day_json(
            alloc,
            &called.places,
            currency,
            editions,
            taps,
            fixes,
            account,
            day,
        )
    }
}
