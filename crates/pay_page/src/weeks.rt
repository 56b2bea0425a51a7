//! The page of a week.
ghost use Rattle.std.specs.Prelude.{◌≡◌, ◌++◌, length, map, IfOk, OnOk};
ghost use Rattle.std.specs.String.{string_bytes};
ghost use Rattle.pay_day.specs.Words.{IsDay, monday};
ghost use Rattle.pay_dates.specs.declared.dated.DatedDay.{DatedDay};
ghost use Rattle.pay_rules.specs.Prices.{days_through};
ghost use Rattle.pay_page.specs.Headings.{week_title};
ghost use Rattle.pay_page.specs.Posted.{posted_of};
ghost use Rattle.pay_page.specs.WeekPages.{day_row, day_rows, days_part, week_page_text, week_sums};

use crate::frame::{PageEnd, PageStart};
use crate::headings::{NamedDay, WeekTitle};
use crate::links::{DayLink, push_week_links};
use crate::posted::{PostedWeek, push_posted};
use crate::sums::{DueRows, SumsStart, WeekSumRows, push_credits, push_table_end};
use pay_dates::{DatedDay, DatedWeek};
use pay_day::monday;
use pay_explain::{Pounds, PricedDay, week_facts};
use pay_fix::FixSet;
use pay_money::Pence;
use pay_tables::Editions;
use pay_taps::TapSet;
use pay_why::{CapReason, counted_credits, due_reason};
use std::alloc::{AllocError, Global};
use std::fmt;

/// The row of a day of the week: the link to it, and what it costs without its maximum fares.
#[derive(Clone, Copy)]
struct DayRow<'a> {
    link: DayLink<'a>,
    price: Pence,
}

impl<'a> fmt::Display for DayRow<'a> {
    ghost use Rattle.std.specs.Prelude.{Some};
    ghost use Rattle.pay_page.specs.WeekPages.{price_row};

    ghost output = { λ it. Some (price_row it.link.account it.link.day it.link.label.now it.price) };

    #[tactic(auto, unfolding(crate::specs::WeekPages::price_row))]
    fn fmt<W: fmt::Write>(&self, f: &mut fmt::Formatter<W>) -> fmt::Result {
        let link = self.link;
        let price = Pounds(self.price);
        write!(
            f,
            "<tr><th scope=\"row\">{link}</th><td class=\"amount\">{price}</td></tr>\n"
        )
    }
}

/// The days of a day's week from Monday through that day, with their dates.
fn dated_days(alloc: Global, through: u32) -> Result<Vec<DatedDay>, AllocError>
    requires { IsDay through }
    ensures { IfOk result (λ list. map (λ (it : DatedDay). it.day) list.items ≡ days_through through) }
{
    let from = monday(through);
    let mut list = Vec::new(alloc);
    for place in 0..through + 1 - from {
        list.push(DatedDay::of(from + place))?;
    }
    Ok(list)
}

/// Adds the row of a day with its price.
fn push_day(
    alloc: Global,
    text: &mut String,
    account: u32,
    day: DatedDay,
    price: Pence,
) -> Result<(), AllocError>
    ensures { OnOk result (string_bytes text.new ≡ string_bytes text.old ++ day_row account day.day price) }
{
    let number = day.day;
    let named = NamedDay(day);
    let mut label = String::new(alloc);
    write!(label, "{named}")?;
    let row = DayRow {
        link: DayLink {
            account,
            day: number,
            label: label.as_str(),
        },
        price,
    };
    write!(text, "{row}")?;
    Ok(())
}

/// Adds the rows of days with their prices.
fn push_days(
    alloc: Global,
    text: &mut String,
    account: u32,
    days: &[DatedDay],
    priced: &[PricedDay],
) -> Result<(), AllocError>
    requires { length days.now ≡ length priced.now }
    ensures { OnOk result (string_bytes text.new ≡ string_bytes text.old ++ day_rows account (map (λ (it : DatedDay). it.day) days.now) priced.now) }
{
    for place in 0..days.len() {
        push_day(alloc, text, account, days[place], priced[place].price)?;
    }
    Ok(())
}

/// Adds the table of the days of a week.
#[tactic(auto, using(crate::proofs::Adding::then_third))]
fn push_days_part(
    alloc: Global,
    text: &mut String,
    account: u32,
    days: &[DatedDay],
    priced: &[PricedDay],
) -> Result<(), AllocError>
    requires { length days.now ≡ length priced.now }
    ensures { OnOk result (string_bytes text.new ≡ string_bytes text.old ++ days_part account (map (λ (it : DatedDay). it.day) days.now) priced.now) }
{
    let start = SumsStart {
        caption: "The days, each with its daily cap and without its maximum fares",
    };
    write!(text, "{start}")?;
    push_days(alloc, text, account, days, priced)?;
    push_table_end(text)?;
    Ok(())
}

/// Adds the table of a week's sums through a day, of the Credits that count, and of what is due.
fn push_sums(
    alloc: Global,
    text: &mut String,
    reason: &CapReason,
    fixes: &FixSet,
    through: u32,
) -> Result<(), AllocError>
    requires { IsDay through }
    ensures { OnOk result (string_bytes text.new ≡ string_bytes text.old ++ week_sums reason.now fixes.now through) }
{
    let credits = counted_credits(alloc, fixes, through)?;
    let start = SumsStart {
        caption: "The price of the week through this day",
    };
    let sums = WeekSumRows(*reason);
    let due = DueRows(due_reason(reason.price, fixes, through));
    write!(text, "{start}")?;
    write!(text, "{sums}")?;
    push_credits(text, &credits)?;
    write!(text, "{due}")?;
    push_table_end(text)?;
    Ok(())
}

/// The title of a week.
fn title_of(alloc: Global, account: u32, through: u32) -> Result<String, AllocError>
    requires { IsDay through }
    ensures { IfOk result (λ text. string_bytes text ≡ week_title account (monday through) through) }
{
    let week = DatedWeek {
        from: DatedDay::of(monday(through)),
        through: DatedDay::of(through),
    };
    let title = WeekTitle { account, week };
    let mut text = String::new(alloc);
    write!(text, "{title}")?;
    Ok(text)
}

/// The page of an account's week through a service day, counted from 1970-01-01, by the accepted taps and corrections of the
/// account: what `explained_week` of `pay_explain` tells, as an HTML document, with links to its days, to the weeks beside
/// it and, where accounts may be corrected, to the corrections of that day; and with what was posted for it. An `Err` is out of memory.
pub fn week_page(
    alloc: Global,
    corrects: bool,
    posted: &PostedWeek<'_>,
    editions: &Editions,
    taps: &TapSet,
    fixes: &FixSet,
    account: u32,
    through: u32,
) -> Result<String, AllocError>
    requires { IsDay through }
    ensures { IfOk result (λ text. string_bytes text ≡ week_page_text corrects (posted_of posted.now) editions.now (record { taps = taps.now; fixes = fixes.now }) account through) }
{
    let days = dated_days(alloc, through)?;
    let facts = week_facts(alloc, editions, taps, fixes, through)?;
    let title = title_of(alloc, account, through)?;
    let start = PageStart {
        title: title.as_str(),
    };
    let end = PageEnd;
    let mut text = String::new(alloc);
    write!(text, "{start}")?;
    push_week_links(&mut text, corrects, account, through)?;
    push_days_part(alloc, &mut text, account, &days, &facts.days)?;
    push_sums(alloc, &mut text, &facts.reason, fixes, through)?;
    push_posted(alloc, &mut text, posted)?;
    write!(text, "{end}")?;
    Ok(text)
}
