//! Forms that take a tap or a correction back.
use pay_html::Escaped;
use std::fmt;

/// A field of a form that is not shown, with a number.
#[derive(Clone, Copy)]
pub struct HiddenNumber<'a> {
    /// What it is called, as HTML.
    pub name: &'a str,
    /// The number.
    pub value: u32,
}

/// The same with a text.
#[derive(Clone, Copy)]
pub struct HiddenText<'a> {
    /// What it is called, as HTML.
    pub name: &'a str,
    /// The text.
    pub value: &'a str,
}

/// The hidden fields by which each form begins.
#[derive(Clone, Copy)]
pub struct AccountFields {
    /// The account.
    pub account: u32,
    /// The service day.
    pub day: u32,
}

/// What is taken back, printed as the end of a line: `VOID 1 1`, or `DROP 3 1`.
#[derive(Clone, Copy)]
pub enum TakenBack {
    /// The tap of a reader and seq.
    Tap(u32, u32),
    /// The correction of a staff and seq.
    Fix(u32, u32),
}

/// The form that asks what would change if something were taken back.
#[derive(Clone, Copy)]
pub struct BackForm<'a> {
    /// The account.
    pub account: u32,
    /// The service day whose prices are shown.
    pub day: u32,
    /// What is taken back.
    pub what: TakenBack,
    /// What the button says, as HTML.
    pub button: &'a str,
}

impl<'a> fmt::Display for HiddenNumber<'a> {
    ghost use Rattle.std.specs.Prelude.{Some, decimal};
    ghost use Rattle.pay_fix_page.specs.BackForms.{hidden};

    ghost output = { λ it. Some (hidden it.name.now (decimal it.value)) };

    #[tactic(auto, unfolding(crate::specs::BackForms::hidden))]
    fn fmt<W: fmt::Write>(&self, f: &mut fmt::Formatter<W>) -> fmt::Result {
        let (name, value) = (self.name, self.value);
        write!(
            f,
            "<input type=\"hidden\" name=\"{name}\" value=\"{value}\">\n"
        )
    }
}

impl<'a> fmt::Display for HiddenText<'a> {
    ghost use Rattle.std.specs.Prelude.{Some};
    ghost use Rattle.pay_html.specs.Words.{escaped};
    ghost use Rattle.pay_fix_page.specs.BackForms.{hidden};

    ghost output = { λ it. Some (hidden it.name.now (escaped it.value.now)) };

    #[tactic(auto, unfolding(crate::specs::BackForms::hidden))]
    fn fmt<W: fmt::Write>(&self, f: &mut fmt::Formatter<W>) -> fmt::Result {
        let name = self.name;
        let value = Escaped(self.value);
        write!(
            f,
            "<input type=\"hidden\" name=\"{name}\" value=\"{value}\">\n"
        )
    }
}

impl fmt::Display for AccountFields {
    ghost use Rattle.std.specs.Prelude.{Some};
    ghost use Rattle.pay_fix_page.specs.BackForms.{account_fields};

    ghost output = { λ it. Some (account_fields it.account it.day) };

    #[tactic(auto, unfolding(crate::specs::BackForms::account_fields))]
    fn fmt<W: fmt::Write>(&self, f: &mut fmt::Formatter<W>) -> fmt::Result {
        let account = HiddenNumber {
            name: "account",
            value: self.account,
        };
        let day = HiddenNumber {
            name: "day",
            value: self.day,
        };
        write!(f, "{account}{day}")
    }
}

impl fmt::Display for TakenBack {
    ghost use Rattle.std.specs.Prelude.{Some};
    ghost use Rattle.pay_fix_page.specs.BackForms.{taken_back};

    ghost output = { λ it. Some (taken_back it) };

    fn fmt<W: fmt::Write>(&self, f: &mut fmt::Formatter<W>) -> fmt::Result {
        match self {
            TakenBack::Tap(reader, seq) => write!(f, "VOID {reader} {seq}"),
            TakenBack::Fix(staff, seq) => write!(f, "DROP {staff} {seq}"),
        }
    }
}

impl<'a> fmt::Display for BackForm<'a> {
    ghost use Rattle.std.specs.Prelude.{Some};
    ghost use Rattle.pay_fix_page.specs.BackForms.{back_form};

    ghost output = { λ it. Some (back_form it.account it.day it.what it.button.now) };

    #[tactic(auto, unfolding(crate::specs::BackForms::back_form, crate::specs::BackForms::hidden))]
    fn fmt<W: fmt::Write>(&self, f: &mut fmt::Formatter<W>) -> fmt::Result {
        let fields = AccountFields {
            account: self.account,
            day: self.day,
        };
        let (what, button) = (self.what, self.button);
        write!(
            f,
            "<form action=\"/preview\" method=\"post\">\n{fields}\
<input type=\"hidden\" name=\"what\" value=\"{what}\">\n<button type=\"submit\">{button}</button>\n</form>\n"
        )
    }
}
