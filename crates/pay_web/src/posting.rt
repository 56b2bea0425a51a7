//! How a posted form is answered.
ghost use Rattle.std.specs.Prelude.{◌≡◌, ◌⊎◌, [], OnErr, OnOk};
ghost use Rattle.std.specs.String.{string_bytes};
ghost use Rattle.http_server.specs.Response.{IsBlank, IsResponse};
ghost use Rattle.pay_web.specs.Answers.{html, IsShown};
ghost use Rattle.pay_web.specs.Asked.{IsAsked};
ghost use Rattle.pay_web.specs.Fields.{fields};
ghost use Rattle.pay_web.specs.Posted.{IsAskedForSecret, IsFixAnswer, IsLost, IsMade, IsPreview, IsPreviewAnswer, IsRefusedWish, IsStranger};

use crate::asked::Asked;
use crate::corrects::{Corrects, Viewer};
use crate::fields::{add, begin};
use crate::gate::Stranger;
use crate::telling::{HTML, show, tell};
use crate::wish::{BadWish, Form, Wish, fix_wish, preview_wish};
use bytes::Bytes;
use http::StatusCode;
use http_server::Response;
use pay_clerks::Clerk;
use pay_wire::SpelledFix;
use std::alloc::{AllocError, Global};

/// A clerk, and what a form of this site has.
#[derive(Clone, Copy)]
pub(crate) struct Poster<'a> {
    pub clerk: &'a Clerk,
    pub token: &'a str,
}

/// Answers the form that makes a correction.
pub(crate) fn answer_fix<P: Corrects>(
    alloc: Global,
    poster: Poster<'_>,
    pages: &mut P,
    body: &[u8],
    response: &mut Response,
) -> Result<(), AllocError>
    requires { IsBlank response.old }
    ensures answered { OnOk result (IsFixAnswer P.Corrects (poster.entry.token.now, poster.entry.clerk.now) pages.old body.now (response.new, pages.new)) }
    ensures same { OnErr result (pages.new ≡ pages.old) }
{
    match fix_wish(alloc, poster.token, poster.clerk, body)? {
        Wish::Correction(asked, fix) => make(pages, asked, &fix, response),
        Wish::Nothing(why) => refuse_wish(why, response),
    }
}

/// Makes a correction, and shows what came of it. All that may end the connection stands before: what was put cannot be taken back.
fn make<P: Corrects>(
    pages: &mut P,
    asked: Asked,
    fix: &SpelledFix,
    response: &mut Response,
) -> Result<(), AllocError>
    requires in_range { IsAsked asked }
    requires blank { IsBlank response.old }
    ensures put { OnOk result (P.puts pages.old fix.now pages.new) }
    ensures made { OnOk result (IsMade P.Corrects pages.new (asked, fix.now) response.new) }
    ensures same { OnErr result (pages.new ≡ pages.old) }
{
    begin(response, StatusCode::OK, HTML)?;
    match pages.put(asked, fix) {
        Ok(page) => show_made(page, response),
        Err(_) => lose(response),
    }
    Ok(())
}

/// Shows what came of a correction, or that it cannot be told.
fn show_made(page: String, response: &mut Response)
    requires { IsResponse 200 (fields html) [] response.old }
    ensures { IsResponse 200 (fields html) (string_bytes page) response.new ⊎ IsLost response.new }
{
    let Ok(page) = Bytes::from_string(page) else {
        lose(response);
        return;
    };
    if response.body.push(page).is_err() {
        response.status = StatusCode::INTERNAL_SERVER_ERROR;
    }
}

/// Says that it is not known whether a correction was kept.
fn lose(response: &mut Response)
    requires { IsResponse 200 (fields html) [] response.old }
    ensures { IsLost response.new }
{
    response.status = StatusCode::SERVICE_UNAVAILABLE;
    let text =
        "The service did not answer. The correction may have been kept, or not. Reload this page to send the same form again: it is kept once. If the form is refused then, since the pages were started again, look at the account first: the correction may be there.\n";
    if response
        .body
        .push(Bytes::from_static(text.as_bytes()))
        .is_err()
    {
        response.status = StatusCode::INTERNAL_SERVER_ERROR;
    }
}

/// Answers a form that shows what a correction does.
pub(crate) fn answer_preview<P: Corrects>(
    alloc: Global,
    poster: Poster<'_>,
    pages: &P,
    form: Form,
    body: &[u8],
    response: &mut Response,
) -> Result<(), AllocError>
    requires { IsBlank response.old }
    ensures { OnOk result (IsPreviewAnswer P.Corrects (poster.entry.token.now, poster.entry.clerk.now) pages.now (form, body.now) response.new) }
{
    match preview_wish(alloc, pages, poster.clerk, form, body)? {
        Wish::Correction(asked, fix) => show_preview(pages, poster, asked, &fix, response),
        Wish::Nothing(why) => refuse_wish(why, response),
    }
}

/// Shows what a correction does, or says that it cannot be shown.
fn show_preview<P: Corrects>(
    pages: &P,
    poster: Poster<'_>,
    asked: Asked,
    fix: &SpelledFix,
    response: &mut Response,
) -> Result<(), AllocError>
    requires in_range { IsAsked asked }
    requires blank { IsBlank response.old }
    ensures { OnOk result (IsShown (IsPreview P.Corrects (poster.entry.token.now, poster.entry.clerk.now) pages.now (asked, fix.now)) response.new) }
{
    let viewer = Viewer {
        name: poster.clerk.name(),
        token: poster.token,
    };
    show(HTML, pages.preview(asked, fix, viewer), response)
}

/// Says why a form asks for nothing.
fn refuse_wish(why: BadWish, response: &mut Response) -> Result<(), AllocError>
    requires { IsBlank response.old }
    ensures { OnOk result (IsRefusedWish why response.new) }
{
    match why {
        BadWish::Stale => tell(
            response,
            StatusCode::FORBIDDEN,
            "This form is from before the pages were started again, and was not sent now. If you have sent it before and got no answer, look at the account first: the correction may be there. If it is not, begin again.\n",
        ),
        BadWish::OverLimit => tell(
            response,
            StatusCode::FORBIDDEN,
            "You may not give a Credit of so much.\n",
        ),
        BadWish::NoSuchTime => tell(
            response,
            StatusCode::BAD_REQUEST,
            "No clock shows this time on that day, since the clocks go forward. Give another time.\n",
        ),
        BadWish::BadForm => tell(
            response,
            StatusCode::BAD_REQUEST,
            "This form names no correction.\n",
        ),
    }
}

/// Refuses whoever posts a form and may not.
pub(crate) fn refuse_stranger(stranger: Stranger, response: &mut Response) -> Result<(), AllocError>
    requires { IsBlank response.old }
    ensures { OnOk result (IsStranger stranger response.new) }
{
    match stranger {
        Stranger::Foreign => tell(
            response,
            StatusCode::FORBIDDEN,
            "This form does not come from this page.\n",
        ),
        Stranger::OtherType => tell(
            response,
            StatusCode::UNSUPPORTED_MEDIA_TYPE,
            "Only a form is read here.\n",
        ),
        Stranger::Nobody => ask_for_secret(response),
    }
}

/// Asks for a staff number and its secret.
fn ask_for_secret(response: &mut Response) -> Result<(), AllocError>
    requires { IsBlank response.old }
    ensures { OnOk result (IsAskedForSecret response.new) }
{
    tell(
        response,
        StatusCode::UNAUTHORIZED,
        "Corrections are for staff: a number and its secret are asked for.\n",
    )?;
    add(
        response,
        "www-authenticate",
        "Basic realm=\"farebox\", charset=\"UTF-8\"",
    )
}
