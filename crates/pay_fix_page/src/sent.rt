//! The pages of what came of a correction, and of one that would be refused.
ghost use Rattle.std.specs.Prelude.{◌≡◌, nat_eq, IfOk};
ghost use Rattle.std.specs.List.{starts_with};
ghost use Rattle.std.specs.String.{string_bytes};
ghost use Rattle.pay_fix_page.specs.Sent.{advice_of, done_text, done_title, is_drop_line, outcome_of, refusal_text, sentence_of, service_advice_of};

use crate::back_forms::{AccountFields, BackForm, TakenBack};
use crate::fix_lines::FixLine;
use crate::previews::{BackLink, preview_title};
use pay_html::Escaped;
use pay_page::{DayLink, PageEnd, PageStart};
use std::alloc::{AllocError, Global};
use std::fmt;

/// A correction, and the reply to it.
#[derive(Clone, Copy)]
pub struct Done<'a> {
    /// The account.
    pub account: u32,
    /// The service day.
    pub day: u32,
    /// What the correction does, as its line said it after the account: `VOID 1 1`.
    pub what: &'a str,
    /// The staff number of the clerk.
    pub staff: u32,
    /// The sequence number of the correction.
    pub seq: u32,
    /// The reply line, without a newline.
    pub reply: &'a str,
}

/// What came of a correction.
#[derive(Clone, Copy)]
enum Outcome {
    /// It was accepted.
    Kept,
    /// It had been accepted before.
    KeptBefore,
    /// No reply came in time, or one that says nothing of it: it may be accepted or not.
    Unknown,
    /// It was refused.
    Refused,
}

/// The line that was sent, the reply, and what that means.
#[derive(Clone, Copy)]
struct Told<'a> {
    line: FixLine<'a>,
    reply: &'a str,
    outcome: Outcome,
}

/// The line that is not sent, and the reply that it would get.
#[derive(Clone, Copy)]
struct NotSent<'a> {
    line: FixLine<'a>,
    reply: &'a str,
}

/// The form that withdraws a correction, where it was accepted and is no Drop.
#[derive(Clone, Copy)]
struct Withdrawal<'a>(&'a Done<'a>);

/// What came of a correction, by the reply to it.
fn outcome_of(reply: &str) -> Outcome
    ensures { result ≡ outcome_of reply.now }
{
    if reply.starts_with("OK ") {
        Outcome::Kept
    } else if reply.starts_with("AGAIN ") {
        Outcome::KeptBefore
    } else if reply.starts_with("NO ") && !reply.starts_with("NO 52 ") {
        Outcome::Refused
    } else {
        Outcome::Unknown
    }
}

/// The same as a sentence.
fn sentence_of(outcome: Outcome) -> &'static str
    ensures { result.now ≡ sentence_of outcome }
{
    match outcome {
        Outcome::Kept => "The correction is kept.",
        Outcome::KeptBefore => "It was kept before: nothing was done twice.",
        Outcome::Unknown => {
            "It may have been kept, or not: look at the day before you correct it again."
        }
        Outcome::Refused => "It was refused, and nothing has changed.",
    }
}

/// Whether a text begins so.
fn begins(text: &str, start: &str) -> bool
    ensures { result ≡ starts_with nat_eq text.now start.now }
{
    text.starts_with(start)
}

/// What else a clerk has to know of a refusal: what it means, and what to do.
fn advice_of(reply: &str) -> &'static str
    ensures { result.now ≡ advice_of reply.now }
{
    if begins(reply, "NO 1 ") {
        " The time is too early, or too far ahead of the clock: give another time."
    } else if begins(reply, "NO 15 ") {
        " There is no such place, or its kind is another: give another place or kind."
    } else if begins(reply, "NO 22 ") {
        " Another correction of yours has this number, from the same second: go back and make a new preview."
    } else if begins(reply, "NO 23 ") {
        " The account has as many corrections as it can have: tell the operator."
    } else {
        service_advice_of(reply)
    }
}

/// The same where the service could not take the correction now.
#[tactic(auto, unfolding(crate::specs::Sent::service_advice_of))]
fn service_advice_of(reply: &str) -> &'static str
    ensures { result.now ≡ service_advice_of reply.now }
{
    if begins(reply, "NO 30 ") {
        " The service has too much to do: wait, and reload this page to send the same form again."
    } else if begins(reply, "NO 34 ") {
        " No corrections are taken where the pages send them: tell the operator."
    } else if begins(reply, "NO 50 ") {
        " The service does not know these pages, or they have another greeting: tell the operator."
    } else if begins(reply, "NO 52 ") {
        " The service is late: reload this page to send the same form again, which is kept once."
    } else if begins(reply, "NO 90 ") {
        " The service had no memory: wait, and reload this page to send the same form again."
    } else {
        ""
    }
}

/// Whether what a correction does is that it withdraws another, as its line says it.
fn is_drop_line(what: &str) -> bool
    ensures { result ≡ is_drop_line what.now }
{
    what.starts_with("DROP ")
}

impl<'a> fmt::Display for Told<'a> {
    ghost use Rattle.std.specs.Prelude.{Some};
    ghost use Rattle.pay_fix_page.specs.Sent.{told};

    ghost output = { λ it. Some (told it.line it.reply.now it.outcome) };

    #[tactic(auto, unfolding(crate::specs::Sent::told))]
    fn fmt<W: fmt::Write>(&self, f: &mut fmt::Formatter<W>) -> fmt::Result {
        let line = self.line;
        let reply = Escaped(self.reply);
        let (sentence, advice) = (sentence_of(self.outcome), advice_of(self.reply));
        write!(
            f,
            "<p>Sent: {line}</p>\n<p>Reply: <code>{reply}</code></p>\n<p>{sentence}{advice}</p>\n"
        )
    }
}

impl<'a> fmt::Display for NotSent<'a> {
    ghost use Rattle.std.specs.Prelude.{Some};
    ghost use Rattle.pay_fix_page.specs.Sent.{not_sent};

    ghost output = { λ it. Some (not_sent it.line it.reply.now) };

    #[tactic(auto, unfolding(crate::specs::Sent::not_sent))]
    fn fmt<W: fmt::Write>(&self, f: &mut fmt::Formatter<W>) -> fmt::Result {
        let line = self.line;
        let reply = Escaped(self.reply);
        let advice = advice_of(self.reply);
        write!(
            f,
            "<p>Not sent: {line}</p>\n<p>It would be refused: <code>{reply}</code>.{advice}</p>\n"
        )
    }
}

impl<'a> fmt::Display for Withdrawal<'a> {
    ghost use Rattle.std.specs.Prelude.{Some};
    ghost use Rattle.pay_fix_page.specs.Sent.{withdrawal};

    ghost output = { λ it. Some (withdrawal it.0.now) };

    fn fmt<W: fmt::Write>(&self, f: &mut fmt::Formatter<W>) -> fmt::Result {
        let done = self.0;
        let form = BackForm {
            account: done.account,
            day: done.day,
            what: TakenBack::Fix(done.staff, done.seq),
            button: "Withdraw it..",
        };
        match outcome_of(done.reply) {
            Outcome::Kept | Outcome::KeptBefore if !is_drop_line(done.what) => write!(f, "{form}"),
            _ => Ok(()),
        }
    }
}

/// The title of the page.
fn title_of(alloc: Global, account: u32) -> Result<String, AllocError>
    ensures { IfOk result (λ text. string_bytes text ≡ done_title account) }
{
    let mut text = String::new(alloc);
    write!(text, "What came of a correction of account {account}")?;
    Ok(text)
}

/// The page of a correction that is not sent, as it would get this reply, a refusal. An `Err` is out of memory.
pub fn refusal_page(alloc: Global, refused: &Done<'_>) -> Result<String, AllocError>
    ensures { IfOk result (λ text. string_bytes text ≡ refusal_text refused.now) }
{
    let (account, day) = (refused.account, refused.day);
    let title = preview_title(alloc, account, day)?;
    let start = PageStart {
        title: title.as_str(),
    };
    let told = NotSent {
        line: FixLine {
            staff: refused.staff,
            seq: refused.seq,
            account,
            what: refused.what,
        },
        reply: refused.reply,
    };
    let (back, end) = (BackLink(AccountFields { account, day }), PageEnd);
    let mut text = String::new(alloc);
    write!(text, "{start}{told}{back}{end}")?;
    Ok(text)
}

/// The page of what came of a correction, with a form that withdraws it where it was accepted and is no Drop. An `Err` is out of memory.
pub fn done_page(alloc: Global, done: &Done<'_>) -> Result<String, AllocError>
    ensures { IfOk result (λ text. string_bytes text ≡ done_text done.now) }
{
    let (account, day, staff, seq) = (done.account, done.day, done.staff, done.seq);
    let title = title_of(alloc, account)?;
    let start = PageStart {
        title: title.as_str(),
    };
    let outcome = outcome_of(done.reply);
    let told = Told {
        line: FixLine {
            staff,
            seq,
            account,
            what: done.what,
        },
        reply: done.reply,
        outcome,
    };
    let day_link = DayLink {
        account,
        day,
        label: "The day",
    };
    let (withdrawal, end) = (Withdrawal(done), PageEnd);
    let mut text = String::new(alloc);
    write!(text, "{start}{told}<p>{day_link}</p>\n{withdrawal}{end}")?;
    Ok(text)
}
