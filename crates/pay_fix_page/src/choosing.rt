//! The page of what can be corrected.
ghost use Rattle.std.specs.Prelude.{◌≡◌, ◌++◌, IfOk, OnOk};
ghost use Rattle.std.specs.String.{string_bytes};
ghost use Rattle.pay_day.specs.Words.{IsDay};
ghost use Rattle.pay_fix_page.specs.Choosing.{choices_text, choices_title, tables};

use crate::asking_forms::{CreditForm, TapForm};
use crate::back_forms::AccountFields;
use crate::fix_rows::push_fixes;
use crate::tap_rows::push_taps;
use pay_dates::DatedDay;
use pay_fix::FixSet;
use pay_names::Names;
use pay_page::{DayLink, NamedDay, PageEnd, PageStart};
use pay_taps::TapSet;
use std::alloc::{AllocError, Global};
use std::fmt;

/// The links to the day and to the start.
#[derive(Clone, Copy)]
struct ChoicesLinks {
    account: u32,
    day: u32,
}

impl fmt::Display for ChoicesLinks {
    ghost use Rattle.std.specs.Prelude.{Some};
    ghost use Rattle.pay_fix_page.specs.Choosing.{choices_links};

    ghost output = { λ it. Some (choices_links it.account it.day) };

    #[tactic(auto, unfolding(crate::specs::Choosing::choices_links))]
    fn fmt<W: fmt::Write>(&self, f: &mut fmt::Formatter<W>) -> fmt::Result {
        let day = DayLink {
            account: self.account,
            day: self.day,
            label: "The day",
        };
        write!(
            f,
            "<nav>\n<ul>\n<li>{day}</li>\n<li><a href=\"/\">Another account or day</a></li>\n</ul>\n</nav>\n"
        )
    }
}

/// The title of the page.
fn title_of(alloc: Global, account: u32, day: u32) -> Result<String, AllocError>
    requires { IsDay day }
    ensures { IfOk result (λ text. string_bytes text ≡ choices_title account day) }
{
    let day = NamedDay(DatedDay::of(day));
    let mut text = String::new(alloc);
    write!(text, "Correct account {account}, {day}")?;
    Ok(text)
}

/// Adds the taps of the day, and the corrections.
#[tactic(auto, using(crate::proofs::Adding::then))]
fn push_tables(
    alloc: Global,
    text: &mut String,
    names: &Names,
    taps: &TapSet,
    fixes: &FixSet,
    account: u32,
    day: u32,
) -> Result<(), AllocError>
    ensures { OnOk result (string_bytes text.new ≡ string_bytes text.old ++ tables names.now (record { taps = taps.now; fixes = fixes.now }) account day) }
{
    push_taps(alloc, text, names, taps, account, day)?;
    push_fixes(alloc, text, names, taps, fixes, account, day)?;
    Ok(())
}

/// The page on which a clerk chooses what to correct of an account, for a service day, by its accepted taps and corrections:
/// each tap of the day with a form that takes it out, each correction that does something with one that withdraws it, and
/// forms for a credit and for a tap that is missing. An `Err` is out of memory.
pub fn choices_page(
    alloc: Global,
    names: &Names,
    taps: &TapSet,
    fixes: &FixSet,
    account: u32,
    day: u32,
) -> Result<String, AllocError>
    requires { IsDay day }
    ensures { IfOk result (λ text. string_bytes text ≡ choices_text names.now (record { taps = taps.now; fixes = fixes.now }) account day) }
{
    let title = title_of(alloc, account, day)?;
    let start = PageStart {
        title: title.as_str(),
    };
    let links = ChoicesLinks { account, day };
    let fields = AccountFields { account, day };
    let (credit, tap, end) = (CreditForm(fields), TapForm(fields), PageEnd);
    let mut text = String::new(alloc);
    write!(text, "{start}{links}")?;
    push_tables(alloc, &mut text, names, taps, fixes, account, day)?;
    write!(text, "{credit}{tap}{end}")?;
    Ok(text)
}
