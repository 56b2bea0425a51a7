//! The page that begins: which account and day to look at.
ghost use Rattle.std.specs.Prelude.{◌≡◌, IfOk};
ghost use Rattle.std.specs.String.{string_bytes};
ghost use Rattle.pay_page.specs.FormPages.{form_page_text};

use crate::frame::{PageEnd, PageStart};
use std::alloc::{AllocError, Global};
use std::fmt;

/// The button that asks for corrections of the day, where that may be asked.
#[derive(Clone, Copy)]
struct CorrectButton(bool);

/// The form that asks for the week of an account through a day.
#[derive(Clone, Copy)]
struct WeekForm {
    corrects: bool,
}

impl fmt::Display for CorrectButton {
    ghost use Rattle.std.specs.Prelude.{Some};
    ghost use Rattle.pay_page.specs.FormPages.{correct_button};

    ghost output = { λ it. Some (correct_button it.0) };

    fn fmt<W: fmt::Write>(&self, f: &mut fmt::Formatter<W>) -> fmt::Result {
        if !self.0 {
            return Ok(());
        }
        f.write_str("\n<button type=\"submit\" formaction=\"/correct\">Correct this day</button>")
    }
}

impl fmt::Display for WeekForm {
    ghost use Rattle.std.specs.Prelude.{Some};
    ghost use Rattle.pay_page.specs.FormPages.{week_form};

    ghost output = { λ it. Some (week_form it.corrects) };

    #[tactic(auto, unfolding(crate::specs::FormPages::week_form))]
    fn fmt<W: fmt::Write>(&self, f: &mut fmt::Formatter<W>) -> fmt::Result {
        let correct = CorrectButton(self.corrects);
        write!(
            f,
            "<form action=\"/week\" method=\"get\">\n<p><label for=\"account\">Account</label>\n\
<input id=\"account\" name=\"account\" type=\"number\" min=\"1\" max=\"4294967295\" required></p>\n\
<p><label for=\"day\">Day</label>\n\
<input id=\"day\" name=\"day\" type=\"date\" min=\"1970-01-05\" max=\"2106-11-24\" required></p>\n\
<p><button type=\"submit\">Show its week through this day</button>{correct}</p>\n</form>\n"
        )
    }
}

/// The page with a form for an account and a day, which asks for `/week?account=A&day=D`; by a second button, where `corrects`
/// says so, for `/correct?account=A&day=D`. An `Err` is out of memory.
pub fn form_page(alloc: Global, corrects: bool) -> Result<String, AllocError>
    ensures { IfOk result (λ text. string_bytes text ≡ form_page_text corrects) }
{
    let start = PageStart {
        title: "Why an account was charged",
    };
    let (form, end) = (WeekForm { corrects }, PageEnd);
    let mut text = String::new(alloc);
    write!(text, "{start}{form}{end}")?;
    Ok(text)
}
