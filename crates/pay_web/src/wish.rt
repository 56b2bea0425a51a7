//! What a posted form asks for.
ghost use Rattle.std.specs.Prelude.{◌≡◌, IfOk};
ghost use Rattle.std.specs.String.{string_bytes};
ghost use Rattle.pay_web.specs.Asked.{IsAsked};
ghost use Rattle.pay_web.specs.Wishes.{IsPreviewWish, IsSaidAt, IsTapSaid, IsWish, credit_said, fix_wish, form_at, said_of, wish_by, wish_of_form};

use crate::asked::{Asked, value_of};
use crate::correction::{fix_by, is_over};
use crate::corrects::Corrects;
use crate::forms::{FixForm, FormStart, fix_form, form_of, tap_form};
use pay_clerks::Clerk;
use pay_wire::SpelledFix;
use std::alloc::{AllocError, Global};

/// What a form is for, by the path to which it is posted.
#[derive(Clone, Copy)]
pub(crate) enum Form {
    /// `/preview`: what a correction does that is named.
    Named,
    /// `/preview-credit`: what a Credit does.
    Credit,
    /// `/preview-tap`: what a tap does that is added.
    Tap,
    /// `/fix`: makes a correction.
    Fix,
}

/// What a form asks for, or why not.
#[derive(Clone, Copy)]
pub(crate) enum Wish {
    /// This correction, and then the day of its account.
    Correction(Asked, SpelledFix),
    /// Nothing.
    Nothing(BadWish),
}

/// Why a form asks for nothing.
#[derive(Clone, Copy)]
pub(crate) enum BadWish {
    /// The form cannot be read, or names no correction.
    BadForm,
    /// The form is none of this page as it runs.
    Stale,
    /// A Credit of more than the clerk may give.
    OverLimit,
    /// A tap at a local time that the clock does not show on its day.
    NoSuchTime,
}

/// The form that is posted to a path.
pub(crate) fn form_at(path: &str) -> Option<Form>
    ensures { result ≡ form_at path.now }
{
    match path {
        "/preview" => Some(Form::Named),
        "/preview-credit" => Some(Form::Credit),
        "/preview-tap" => Some(Form::Tap),
        "/fix" => Some(Form::Fix),
        _ => None,
    }
}

/// What the form asks for that makes a correction.
pub(crate) fn fix_wish(
    alloc: Global,
    token: &str,
    clerk: &Clerk,
    body: &[u8],
) -> Result<Wish, AllocError>
    ensures wish { IfOk result (λ wish. wish ≡ fix_wish token.now clerk.now body.now) }
    ensures in_range { IfOk result IsWish }
{
    let Some(FormStart { asked, rest }) = form_of(body) else {
        return Ok(Wish::Nothing(BadWish::BadForm));
    };
    match fix_form(rest) {
        Some(form) => wish_of_form(alloc, token, clerk, asked, form),
        None => Ok(Wish::Nothing(BadWish::BadForm)),
    }
}

/// The same of what it says.
fn wish_of_form(
    alloc: Global,
    token: &str,
    clerk: &Clerk,
    asked: Asked,
    form: FixForm<'_>,
) -> Result<Wish, AllocError>
    requires { IsAsked asked }
    ensures wish { IfOk result (λ wish. wish ≡ wish_of_form token.now clerk.now asked form.entry) }
    ensures in_range { IfOk result IsWish }
{
    if form.token != token {
        return Ok(Wish::Nothing(BadWish::Stale));
    }
    let fix = fix_by(alloc, clerk.staff(), form.seq, asked.account, form.what)?;
    Ok(wish_by(clerk.limit(), asked, fix))
}

/// A correction, if there is one, and its clerk may make it.
fn wish_by(limit: u32, asked: Asked, fix: Option<SpelledFix>) -> Wish
    requires { IsAsked asked }
    ensures wish { result ≡ wish_by limit asked fix }
    ensures in_range { IsWish result }
{
    match fix {
        None => Wish::Nothing(BadWish::BadForm),
        Some(fix) if is_over(limit, &fix) => Wish::Nothing(BadWish::OverLimit),
        Some(fix) => Wish::Correction(asked, fix),
    }
}

/// What a form asks for that shows what a correction does.
pub(crate) fn preview_wish<P: Corrects>(
    alloc: Global,
    pages: &P,
    clerk: &Clerk,
    form: Form,
    body: &[u8],
) -> Result<Wish, AllocError>
    ensures wish { IfOk result (IsPreviewWish P.is_instant pages.now clerk.now form body.now) }
    ensures in_range { IfOk result IsWish }
{
    let Some(FormStart { asked, rest }) = form_of(body) else {
        return Ok(Wish::Nothing(BadWish::BadForm));
    };
    let seq = pages.next_seq();
    match what_said(alloc, pages, form, asked.day, rest)? {
        Ok(what) => {
            let fix = fix_by(alloc, clerk.staff(), seq, asked.account, what.as_str())?;
            Ok(wish_by(clerk.limit(), asked, fix))
        }
        Err(why) => Ok(Wish::Nothing(why)),
    }
}

/// What a correction does, as a form says it, in the words of a line; or why it says nothing.
fn what_said<P: Corrects>(
    alloc: Global,
    pages: &P,
    form: Form,
    day: u32,
    rest: &str,
) -> Result<Result<String, BadWish>, AllocError>
    ensures { IfOk result (λ what. IsSaidAt P.is_instant pages.now form day rest.now (said_of what)) }
{
    match form {
        Form::Named | Form::Fix => match value_of(rest, "what=") {
            Some(what) => Ok(Ok(String::from_str(alloc, what)?)),
            None => Ok(Err(BadWish::BadForm)),
        },
        Form::Credit => match value_of(rest, "pence=") {
            Some(pence) => Ok(Ok(credit_said(alloc, day, pence)?)),
            None => Ok(Err(BadWish::BadForm)),
        },
        Form::Tap => tap_said(alloc, pages, day, rest),
    }
}

/// A Credit of a day.
fn credit_said(alloc: Global, day: u32, pence: &str) -> Result<String, AllocError>
    ensures { IfOk result (λ what. string_bytes what ≡ credit_said day pence.now) }
{
    let mut what = String::new(alloc);
    write!(what, "CREDIT {day} {pence}")?;
    Ok(what)
}

/// A tap that is added.
fn tap_said<P: Corrects>(
    alloc: Global,
    pages: &P,
    day: u32,
    rest: &str,
) -> Result<Result<String, BadWish>, AllocError>
    ensures { IfOk result (λ what. IsTapSaid P.is_instant pages.now day rest.now (said_of what)) }
{
    let Some(form) = tap_form(rest) else {
        return Ok(Err(BadWish::BadForm));
    };
    let Some(utc) = pages.instant(day, form.second) else {
        return Ok(Err(BadWish::NoSuchTime));
    };
    let (place, kind) = (form.place, form.kind);
    let mut what = String::new(alloc);
    write!(what, "FILL {utc} {place} {kind}")?;
    Ok(Ok(what))
}
