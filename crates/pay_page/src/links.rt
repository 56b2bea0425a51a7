//! The links from a day and from a week to others.
ghost use Rattle.std.specs.Prelude.{◌≡◌, ◌++◌, OnOk};
ghost use Rattle.std.specs.String.{string_bytes};
ghost use Rattle.pay_day.specs.Words.{IsDay};
ghost use Rattle.pay_page.specs.Links.{day_links, is_day, week_links};

use pay_day::limits::{DAYS_PER_WEEK, FIRST_DAY, LAST_DAY};
use pay_day::monday;
use pay_html::Escaped;
use std::alloc::AllocError;
use std::fmt;

/// A link to the page of a day of an account.
#[derive(Clone, Copy)]
pub struct DayLink<'a> {
    /// The account.
    pub account: u32,
    /// The service day.
    pub day: u32,
    /// What the link says, a text.
    pub label: &'a str,
}

/// A link to the page of an account's week through a day.
#[derive(Clone, Copy)]
struct WeekLink<'a> {
    account: u32,
    through: u32,
    label: &'a str,
}

/// An item of a list with the link to the corrections of a day of an account, where accounts may be corrected, and else nothing.
#[derive(Clone, Copy)]
struct CorrectItem<'a> {
    corrects: bool,
    account: u32,
    day: u32,
    label: &'a str,
}

/// An item of a list with the link to a day, where that is a service day, and else nothing.
#[derive(Clone, Copy)]
struct DayItem<'a>(DayLink<'a>);

/// The same with the link to a week through a day.
#[derive(Clone, Copy)]
struct WeekItem<'a>(WeekLink<'a>);

impl<'a> fmt::Display for DayLink<'a> {
    ghost use Rattle.std.specs.Prelude.{Some};
    ghost use Rattle.pay_page.specs.Links.{day_link};

    ghost output = { λ it. Some (day_link it.account it.day it.label.now) };

    #[tactic(auto, unfolding(crate::specs::Links::day_link))]
    fn fmt<W: fmt::Write>(&self, f: &mut fmt::Formatter<W>) -> fmt::Result {
        let (account, day) = (self.account, self.day);
        let label = Escaped(self.label);
        write!(
            f,
            "<a href=\"/day?account={account}&amp;day={day}\">{label}</a>"
        )
    }
}

impl<'a> fmt::Display for WeekLink<'a> {
    ghost use Rattle.std.specs.Prelude.{Some};
    ghost use Rattle.pay_page.specs.Links.{week_link};

    ghost output = { λ it. Some (week_link it.account it.through it.label.now) };

    fn fmt<W: fmt::Write>(&self, f: &mut fmt::Formatter<W>) -> fmt::Result {
        let (account, through) = (self.account, self.through);
        let label = Escaped(self.label);
        write!(
            f,
            "<a href=\"/week?account={account}&amp;day={through}\">{label}</a>"
        )
    }
}

impl<'a> fmt::Display for CorrectItem<'a> {
    ghost use Rattle.std.specs.Prelude.{Some};
    ghost use Rattle.pay_page.specs.Links.{correct_item};

    ghost output = { λ it. Some (correct_item it.corrects it.account it.day it.label.now) };

    fn fmt<W: fmt::Write>(&self, f: &mut fmt::Formatter<W>) -> fmt::Result {
        if !self.corrects {
            return Ok(());
        }
        let (account, day) = (self.account, self.day);
        let label = Escaped(self.label);
        write!(
            f,
            "<li><a href=\"/correct?account={account}&amp;day={day}\">{label}</a></li>\n"
        )
    }
}

impl<'a> fmt::Display for DayItem<'a> {
    ghost use Rattle.std.specs.Prelude.{Some};
    ghost use Rattle.pay_page.specs.Links.{day_item};

    ghost output = { λ it. Some (day_item it.0.account it.0.day it.0.label.now) };

    fn fmt<W: fmt::Write>(&self, f: &mut fmt::Formatter<W>) -> fmt::Result {
        if !is_day(self.0.day) {
            return Ok(());
        }
        let link = self.0;
        write!(f, "<li>{link}</li>\n")
    }
}

impl<'a> fmt::Display for WeekItem<'a> {
    ghost use Rattle.std.specs.Prelude.{Some};
    ghost use Rattle.pay_page.specs.Links.{week_item};

    ghost output = { λ it. Some (week_item it.0.account it.0.through it.0.label.now) };

    fn fmt<W: fmt::Write>(&self, f: &mut fmt::Formatter<W>) -> fmt::Result {
        if !is_day(self.0.through) {
            return Ok(());
        }
        let link = self.0;
        write!(f, "<li>{link}</li>\n")
    }
}

/// Whether a number is that of a service day.
fn is_day(day: u32) -> bool
    ensures { result ≡ is_day day }
{
    FIRST_DAY <= day && day <= LAST_DAY
}

/// Adds the links from a day: to the start, to its week through that day, to the day before and to the day after; and to its corrections,
/// where accounts may be corrected.
#[tactic(auto, unfolding(crate::specs::Links::day_links))]
pub fn push_day_links(
    text: &mut String,
    corrects: bool,
    account: u32,
    day: u32,
) -> Result<(), AllocError>
    requires { IsDay day }
    ensures { OnOk result (string_bytes text.new ≡ string_bytes text.old ++ day_links corrects account day) }
{
    let correct = CorrectItem {
        corrects,
        account,
        day,
        label: "Correct this day",
    };
    let week = WeekItem(WeekLink {
        account,
        through: day,
        label: "The week through this day",
    });
    let before = DayItem(DayLink {
        account,
        day: day - 1,
        label: "The day before",
    });
    let after = DayItem(DayLink {
        account,
        day: day + 1,
        label: "The day after",
    });
    write!(
        text,
        "<nav>\n<ul>\n<li><a href=\"/\">Another account or day</a></li>\n{week}{before}{after}{correct}</ul>\n</nav>\n"
    )?;
    Ok(())
}

/// Adds the links from a week: to the start, to the week before and to the week after, each through its Sunday; and to the corrections of
/// its last day, where accounts may be corrected.
#[tactic(auto, unfolding(crate::specs::Links::week_links))]
pub fn push_week_links(
    text: &mut String,
    corrects: bool,
    account: u32,
    through: u32,
) -> Result<(), AllocError>
    requires { IsDay through }
    ensures { OnOk result (string_bytes text.new ≡ string_bytes text.old ++ week_links corrects account through) }
{
    let correct = CorrectItem {
        corrects,
        account,
        day: through,
        label: "Correct its last day",
    };
    let monday = monday(through);
    let before = WeekItem(WeekLink {
        account,
        through: monday - 1,
        label: "The week before",
    });
    let after = WeekItem(WeekLink {
        account,
        through: monday + (2 * DAYS_PER_WEEK - 1),
        label: "The week after",
    });
    write!(
        text,
        "<nav>\n<ul>\n<li><a href=\"/\">Another account or day</a></li>\n{before}{after}{correct}</ul>\n</nav>\n"
    )?;
    Ok(())
}
