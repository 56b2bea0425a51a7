//! The document of a day.
ghost use Rattle.std.specs.Prelude.{◌≡◌, IfOk};
ghost use Rattle.std.specs.String.{string_bytes};
ghost use Rattle.serde_json.specs.Written.{compact_text};
ghost use Rattle.pay_day.specs.Words.{IsDay};
ghost use Rattle.pay_json.specs.Days.{day_value};

use crate::arrays::date_of;
use crate::corrections::corrections_array;
use crate::journeys::journeys_array;
use crate::strings::Quoted;
use crate::sums::Sums;
use pay_dates::DatedDay;
use pay_explain::day_facts;
use pay_fix::FixSet;
use pay_names::Names;
use pay_tables::Editions;
use pay_taps::TapSet;
use pay_why::CapReason;
use std::alloc::{AllocError, Global};
use std::fmt;

/// The document of a day, with its arrays as they are written.
#[derive(Clone, Copy)]
struct DayDocument<'a> {
    account: u32,
    currency: &'a str,
    day: u32,
    date: &'a str,
    journeys: &'a str,
    reason: CapReason,
    corrections: &'a str,
}

/// The end of it, from its journeys on.
#[derive(Clone, Copy)]
struct DayParts<'a> {
    journeys: &'a str,
    reason: CapReason,
    corrections: &'a str,
}

impl<'a> fmt::Display for DayParts<'a> {
    ghost use Rattle.std.specs.Prelude.{Some};
    ghost use Rattle.pay_json.specs.Days.{day_parts};

    ghost output = { λ it. Some (day_parts it.journeys.now it.reason it.corrections.now) };

    #[tactic(auto, unfolding(crate::specs::Days::day_parts))]
    fn fmt<W: fmt::Write>(&self, f: &mut fmt::Formatter<W>) -> fmt::Result {
        let journeys = self.journeys;
        let sums = Sums(self.reason);
        let corrections = self.corrections;
        write!(
            f,
            ",\"journeys\":{journeys},\"sums\":{sums},\"corrections\":{corrections}}}"
        )
    }
}

impl<'a> fmt::Display for DayDocument<'a> {
    ghost use Rattle.std.specs.Prelude.{Some};
    ghost use Rattle.pay_json.specs.Days.{day_document};

    ghost output = { λ it. Some (day_document it.account it.currency.now it.day it.date.now it.journeys.now it.reason it.corrections.now) };

    #[tactic(auto, unfolding(crate::specs::Days::day_document))]
    fn fmt<W: fmt::Write>(&self, f: &mut fmt::Formatter<W>) -> fmt::Result {
        let (account, day) = (self.account, self.day);
        let currency = Quoted(self.currency);
        let date = Quoted(self.date);
        let parts = DayParts {
            journeys: self.journeys,
            reason: self.reason,
            corrections: self.corrections,
        };
        write!(
            f,
            "{{\"account\":{account},\"currency\":{currency},\"day\":{day},\"date\":{date}{parts}"
        )
    }
}

/// Why a service day of an account, counted from 1970-01-01, costs what it costs, by the accepted taps and corrections of the
/// account: what `explained_day` of `pay_explain` tells, as an object of JSON, with amounts in whole hundredth parts of this
/// currency. `OPENAPI` has its schema, `Day`. An `Err` is out of memory.
pub fn day_json(
    alloc: Global,
    names: &Names,
    currency: &str,
    editions: &Editions,
    taps: &TapSet,
    fixes: &FixSet,
    account: u32,
    day: u32,
) -> Result<String, AllocError>
    requires { IsDay day }
    ensures { IfOk result (λ text. string_bytes text ≡ compact_text (day_value names.now currency.now editions.now (record { taps = taps.now; fixes = fixes.now }) account day)) }
{
    let facts = day_facts(alloc, editions, taps, fixes, day)?;
    let date = date_of(alloc, DatedDay::of(day))?;
    let journeys = journeys_array(alloc, names, editions, &facts)?;
    let corrections = corrections_array(alloc, names, taps, fixes, day)?;
    let date = date.as_str();
    let journeys = journeys.as_str();
    let corrections = corrections.as_str();
    let document = DayDocument {
        account,
        currency,
        day,
        date,
        journeys,
        reason: facts.reason,
        corrections,
    };
    let mut text = String::new(alloc);
    write!(text, "{document}")?;
    Ok(text)
}
