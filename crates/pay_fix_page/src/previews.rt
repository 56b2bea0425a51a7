//! The page of what a correction would change.
ghost use Rattle.std.specs.Prelude.{◌≡◌, IfOk};
ghost use Rattle.std.specs.String.{string_bytes};
ghost use Rattle.pay_fix_page.specs.Previews.{preview_text, preview_title};

use crate::back_forms::{AccountFields, HiddenNumber, HiddenText};
use crate::fix_lines::FixLine;
use pay_explain::Pounds;
use pay_html::Escaped;
use pay_money::Pence;
use pay_page::{PageEnd, PageStart};
use std::alloc::{AllocError, Global};
use std::fmt;

/// What an account owes of a service day.
#[derive(Clone, Copy)]
pub struct Owed {
    /// The price of the day, from which no Credit is taken off.
    pub day: Pence,
    /// What is due of its week through the day, after Credits.
    pub week: Pence,
}

/// A correction that is not sent yet, and what it would change.
#[derive(Clone, Copy)]
pub struct Preview<'a> {
    /// The account.
    pub account: u32,
    /// The service day whose prices are told.
    pub day: u32,
    /// What the correction does, as a line says it after the account: `VOID 1 1`.
    pub what: &'a str,
    /// The staff number of the clerk.
    pub staff: u32,
    /// The sequence number that the correction will have.
    pub seq: u32,
    /// The name of the clerk.
    pub clerk: &'a str,
    /// What shows that the form is the page's own.
    pub token: &'a str,
    /// The prices as they are.
    pub before: Owed,
    /// The prices as they would be.
    pub after: Owed,
}

/// How a price differs from another, with its sign: `+1.75`, `-1.75`, or `0.00`.
#[derive(Clone, Copy)]
struct Difference {
    before: Pence,
    after: Pence,
}

/// The row of a price.
#[derive(Clone, Copy)]
struct PriceRow<'a> {
    label: &'a str,
    before: Pence,
    after: Pence,
}

/// The table of both prices.
#[derive(Clone, Copy)]
struct Prices {
    before: Owed,
    after: Owed,
}

/// Who corrects, and the line of the correction.
#[derive(Clone, Copy)]
struct Head<'a> {
    clerk: &'a str,
    line: FixLine<'a>,
}

/// The link back to what can be corrected.
#[derive(Clone, Copy)]
pub struct BackLink(pub AccountFields);

/// The form that sends the correction.
#[derive(Clone, Copy)]
struct FixForm<'a> {
    fields: AccountFields,
    seq: u32,
    token: &'a str,
    what: &'a str,
}

impl fmt::Display for Difference {
    ghost use Rattle.std.specs.Prelude.{Some};
    ghost use Rattle.pay_fix_page.specs.Previews.{difference};

    ghost output = { λ it. Some (difference it.before it.after) };

    #[tactic(auto, unfolding(crate::specs::Previews::difference))]
    fn fmt<W: fmt::Write>(&self, f: &mut fmt::Formatter<W>) -> fmt::Result {
        let (before, after) = (self.before, self.after);
        if before < after {
            let more = Pounds(after - before);
            write!(f, "+{more}")
        } else if after < before {
            let less = Pounds(before - after);
            write!(f, "-{less}")
        } else {
            f.write_str("0.00")
        }
    }
}

impl<'a> fmt::Display for PriceRow<'a> {
    ghost use Rattle.std.specs.Prelude.{Some};
    ghost use Rattle.pay_fix_page.specs.Previews.{price_row};

    ghost output = { λ it. Some (price_row it.label.now it.before it.after) };

    #[tactic(auto, unfolding(crate::specs::Previews::price_row))]
    fn fmt<W: fmt::Write>(&self, f: &mut fmt::Formatter<W>) -> fmt::Result {
        let label = self.label;
        let (before, after) = (Pounds(self.before), Pounds(self.after));
        let difference = Difference {
            before: self.before,
            after: self.after,
        };
        write!(
            f,
            "<tr><th scope=\"row\">{label}</th><td class=\"amount\">{before}</td>\
<td class=\"amount\">{after}</td><td class=\"amount\">{difference}</td></tr>\n"
        )
    }
}

impl fmt::Display for Prices {
    ghost use Rattle.std.specs.Prelude.{Some};
    ghost use Rattle.pay_fix_page.specs.Previews.{prices};

    ghost output = { λ it. Some (prices it.before it.after) };

    #[tactic(auto, unfolding(crate::specs::Previews::prices))]
    fn fmt<W: fmt::Write>(&self, f: &mut fmt::Formatter<W>) -> fmt::Result {
        let day = PriceRow {
            label: "The price of this day",
            before: self.before.day,
            after: self.after.day,
        };
        let week = PriceRow {
            label: "Due of its week through this day",
            before: self.before.week,
            after: self.after.week,
        };
        write!(
            f,
            "<table>\n<caption>Before the correction, and after it</caption>\n<thead>\n\
<tr><th scope=\"col\">Of</th><th scope=\"col\">Before</th><th scope=\"col\">After</th>\
<th scope=\"col\">Difference</th></tr>\n</thead>\n<tbody>\n{day}{week}</tbody>\n</table>\n\
<p>A Credit changes no price: it is taken off what is due. What changes on other days is not shown here.</p>\n"
        )
    }
}

impl<'a> fmt::Display for Head<'a> {
    ghost use Rattle.std.specs.Prelude.{Some};
    ghost use Rattle.pay_fix_page.specs.Previews.{head};

    ghost output = { λ it. Some (head it.clerk.now it.line) };

    #[tactic(auto, unfolding(crate::specs::Previews::head))]
    fn fmt<W: fmt::Write>(&self, f: &mut fmt::Formatter<W>) -> fmt::Result {
        let clerk = Escaped(self.clerk);
        let line = self.line;
        let staff = line.staff;
        write!(
            f,
            "<p>You are {clerk}, staff number {staff}.</p>\n<p>The correction: {line}</p>\n"
        )
    }
}

impl<'a> fmt::Display for FixForm<'a> {
    ghost use Rattle.std.specs.Prelude.{Some};
    ghost use Rattle.pay_fix_page.specs.Previews.{fix_form};

    ghost output = { λ it. Some (fix_form it.fields.account it.fields.day it.seq it.token.now it.what.now) };

    #[tactic(auto, unfolding(crate::specs::Previews::fix_form))]
    fn fmt<W: fmt::Write>(&self, f: &mut fmt::Formatter<W>) -> fmt::Result {
        let fields = self.fields;
        let seq = HiddenNumber {
            name: "seq",
            value: self.seq,
        };
        let token = HiddenText {
            name: "token",
            value: self.token,
        };
        let what = HiddenText {
            name: "what",
            value: self.what,
        };
        write!(
            f,
            "<form action=\"/fix\" method=\"post\">\n{fields}{seq}{token}{what}\
<p><button type=\"submit\">Correct</button></p>\n</form>\n"
        )
    }
}

impl fmt::Display for BackLink {
    ghost use Rattle.std.specs.Prelude.{Some};
    ghost use Rattle.pay_fix_page.specs.Previews.{back_link};

    ghost output = { λ it. Some (back_link it.0.account it.0.day) };

    #[tactic(auto, unfolding(crate::specs::Previews::back_link))]
    fn fmt<W: fmt::Write>(&self, f: &mut fmt::Formatter<W>) -> fmt::Result {
        let (account, day) = (self.0.account, self.0.day);
        write!(
            f,
            "<p><a href=\"/correct?account={account}&amp;day={day}\">Back, and correct nothing</a></p>\n"
        )
    }
}

/// The title of the page.
pub(crate) fn preview_title(alloc: Global, account: u32, day: u32) -> Result<String, AllocError>
    ensures { IfOk result (λ text. string_bytes text ≡ preview_title account day) }
{
    let mut text = String::new(alloc);
    write!(
        text,
        "What a correction of account {account} would change, day {day}"
    )?;
    Ok(text)
}

/// The page of what a correction would change, with the form that sends it. An `Err` is out of memory.
pub fn preview_page(alloc: Global, preview: &Preview<'_>) -> Result<String, AllocError>
    ensures { IfOk result (λ text. string_bytes text ≡ preview_text preview.now) }
{
    let (account, day, what) = (preview.account, preview.day, preview.what);
    let title = preview_title(alloc, account, day)?;
    let start = PageStart {
        title: title.as_str(),
    };
    let line = FixLine {
        staff: preview.staff,
        seq: preview.seq,
        account,
        what,
    };
    let head = Head {
        clerk: preview.clerk,
        line,
    };
    let prices = Prices {
        before: preview.before,
        after: preview.after,
    };
    let fields = AccountFields { account, day };
    let form = FixForm {
        fields,
        seq: preview.seq,
        token: preview.token,
        what,
    };
    let (back, end) = (BackLink(fields), PageEnd);
    let mut text = String::new(alloc);
    write!(text, "{start}{head}{prices}{form}{back}{end}")?;
    Ok(text)
}
