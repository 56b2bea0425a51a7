//! The texts of a day and of a week, by what an account has accepted.
ghost use Rattle.std.specs.Prelude.{◌≡◌, IfOk};
ghost use Rattle.std.specs.String.{string_bytes};
ghost use Rattle.pay_day.specs.Words.{IsDay};
ghost use Rattle.pay_explain_job.specs.Explain.{day_text, week_text, text_of, query};

use crate::heads::{with_day_head, with_week_head};
use pay_explain::{explained_day, explained_week};
use pay_fix::FixSet;
use pay_names::Names;
use pay_tables::Editions;
use pay_taps::TapSet;
use std::alloc::{AllocError, Global};

/// Why a service day of an account was charged, with its date.
fn day_text(
    alloc: Global,
    names: &Names,
    currency: &str,
    editions: &Editions,
    taps: &TapSet,
    fixes: &FixSet,
    account: u32,
    day: u32,
) -> Result<String, AllocError>
    requires { IsDay day }
    ensures { IfOk result (λ text. string_bytes text ≡ day_text names.now currency.now editions.now (record { taps = taps.now; fixes = fixes.now }) account day) }
{
    let explained = explained_day(alloc, names, editions, taps, fixes, day)?;
    with_day_head(alloc, currency, account, day, explained.as_str())
}

/// The same of the week of a service day through that day.
fn week_text(
    alloc: Global,
    currency: &str,
    editions: &Editions,
    taps: &TapSet,
    fixes: &FixSet,
    account: u32,
    through: u32,
) -> Result<String, AllocError>
    requires { IsDay through }
    ensures { IfOk result (λ text. string_bytes text ≡ week_text currency.now editions.now (record { taps = taps.now; fixes = fixes.now }) account through) }
{
    let explained = explained_week(alloc, editions, taps, fixes, through)?;
    with_week_head(alloc, currency, account, through, explained.as_str())
}

/// Either of these, with amounts in this currency: of a day, places have these names. An `Err` is out of memory.
pub fn text_of(
    alloc: Global,
    names: &Names,
    currency: &str,
    editions: &Editions,
    taps: &TapSet,
    fixes: &FixSet,
    account: u32,
    day: u32,
    week: bool,
) -> Result<String, AllocError>
    requires { IsDay day }
    ensures { IfOk result (λ text. string_bytes text ≡ text_of (query account day week) names.now currency.now editions.now (record { taps = taps.now; fixes = fixes.now })) }
{
    if week {
        week_text(alloc, currency, editions, taps, fixes, account, day)
    } else {
        day_text(alloc, names, currency, editions, taps, fixes, account, day)
    }
}
