//! The page of a day.
ghost use Rattle.std.specs.Prelude.{◌≡◌, ◌++◌, IfOk, OnOk};
ghost use Rattle.std.specs.String.{string_bytes};
ghost use Rattle.pay_day.specs.Words.{IsDay};
ghost use Rattle.pay_page.specs.DayPages.{day_page_text, day_parts_of, day_sums, journeys_part, journeys_table};
ghost use Rattle.pay_page.specs.Headings.{day_title};

use crate::corrections::push_corrections;
use crate::frame::{PageEnd, PageStart};
use crate::headings::DayTitle;
use crate::journeys::{JourneysStart, push_rows};
use crate::links::push_day_links;
use crate::picture::push_picture;
use crate::sums::{DaySumRows, SumsStart, push_table_end};
use pay_dates::DatedDay;
use pay_explain::{DayFacts, day_facts};
use pay_fix::FixSet;
use pay_names::Names;
use pay_tables::Editions;
use pay_taps::TapSet;
use pay_why::CapReason;
use std::alloc::{AllocError, Global};

/// The title of a day.
fn title_of(alloc: Global, account: u32, day: u32) -> Result<String, AllocError>
    requires { IsDay day }
    ensures { IfOk result (λ text. string_bytes text ≡ day_title account day) }
{
    let title = DayTitle {
        account,
        day: DatedDay::of(day),
    };
    let mut text = String::new(alloc);
    write!(text, "{title}")?;
    Ok(text)
}

/// Adds the table of a day's journeys.
#[tactic(auto, using(crate::proofs::Adding::then_third))]
fn push_table(
    alloc: Global,
    text: &mut String,
    names: &Names,
    editions: &Editions,
    facts: &DayFacts,
) -> Result<(), AllocError>
    ensures { OnOk result (string_bytes text.new ≡ string_bytes text.old ++ journeys_table names.now editions.now facts.now.journeys.items facts.now.boardings.items facts.now.list.items) }
{
    let start = JourneysStart;
    write!(text, "{start}")?;
    push_rows(alloc, text, names, editions, facts)?;
    push_table_end(text)?;
    Ok(())
}

/// Adds the picture and the table of a day's journeys, or that there are none.
fn push_journeys(
    alloc: Global,
    text: &mut String,
    title: &str,
    names: &Names,
    editions: &Editions,
    facts: &DayFacts,
) -> Result<(), AllocError>
    ensures { OnOk result (string_bytes text.new ≡ string_bytes text.old ++ journeys_part title.now names.now editions.now facts.now.journeys.items facts.now.boardings.items facts.now.list.items) }
{
    if facts.list.is_empty() {
        text.push_str("<p>No journey began on this day.</p>\n")?;
    } else {
        push_picture(text, title, facts)?;
        push_table(alloc, text, names, editions, facts)?;
    }
    Ok(())
}

/// Adds the table of a day's sums.
fn push_sums(text: &mut String, reason: &CapReason) -> Result<(), AllocError>
    ensures { OnOk result (string_bytes text.new ≡ string_bytes text.old ++ day_sums reason.now) }
{
    let start = SumsStart {
        caption: "The price of the day",
    };
    let rows = DaySumRows(*reason);
    write!(text, "{start}")?;
    write!(text, "{rows}")?;
    push_table_end(text)?;
    Ok(())
}

/// Adds what a day's journeys are and what they come to.
#[tactic(auto, using(crate::proofs::Adding::then))]
fn push_facts(
    alloc: Global,
    text: &mut String,
    title: &str,
    names: &Names,
    editions: &Editions,
    facts: &DayFacts,
) -> Result<(), AllocError>
    ensures { OnOk result (string_bytes text.new ≡ string_bytes text.old ++ day_parts_of title.now names.now editions.now facts.now) }
{
    push_journeys(alloc, text, title, names, editions, facts)?;
    push_sums(text, &facts.reason)?;
    Ok(())
}

/// The page of a service day of an account, counted from 1970-01-01, by the accepted taps and corrections of the account: what
/// `explained_day` of `pay_explain` tells, as an HTML document, with a picture of the day and links to the days beside it and
/// to its week; and to its corrections, where accounts may be corrected. An `Err` is out of memory.
pub fn day_page(
    alloc: Global,
    corrects: bool,
    names: &Names,
    editions: &Editions,
    taps: &TapSet,
    fixes: &FixSet,
    account: u32,
    day: u32,
) -> Result<String, AllocError>
    requires { IsDay day }
    ensures { IfOk result (λ text. string_bytes text ≡ day_page_text corrects names.now editions.now (record { taps = taps.now; fixes = fixes.now }) account day) }
{
    let facts = day_facts(alloc, editions, taps, fixes, day)?;
    let title = title_of(alloc, account, day)?;
    let title = title.as_str();
    let start = PageStart { title };
    let end = PageEnd;
    let mut text = String::new(alloc);
    write!(text, "{start}")?;
    push_day_links(&mut text, corrects, account, day)?;
    push_facts(alloc, &mut text, title, names, editions, &facts)?;
    push_corrections(alloc, &mut text, names, taps, fixes, day)?;
    write!(text, "{end}")?;
    Ok(text)
}
