//! How what is asked for is answered.
ghost use Rattle.std.specs.Prelude.{◌≡◌, IsTrue, OnOk};
ghost use Rattle.http_header.specs.FieldValue.{is_visible_text};
ghost use Rattle.http_server.specs.Response.{IsBlank};
ghost use Rattle.pay_web.specs.Questions.{IsQuestion};
ghost use Rattle.pay_web.specs.Answers.{IsAnswer, IsBadFormMethod, IsBadJson, IsBadMethod, IsDescription, IsForm, IsHealth, IsLine, IsMetrics, IsMisdirected, IsPageOrNot, IsStyle, IsUnavailable, IsUnknown};

use crate::fields::{add, answer};
use crate::pages::{PageFault, Pages};
use crate::question::Question;
use bytes::Bytes;
use http::StatusCode;
use http_server::Response;
use pay_json::OPENAPI;
use pay_page::{STYLE, form_page};
use std::alloc::{AllocError, Global};

pub(crate) const HTML: &str = "text/html; charset=utf-8";

const TEXT: &str = "text/plain; charset=utf-8";

const CSS: &str = "text/css; charset=utf-8";

const JSON: &str = "application/json";

const METRICS: &str = "text/plain; version=0.0.4; charset=utf-8";

/// Answers what a request asks for, where accounts are corrected or not. What can be corrected is shown by whoever corrects.
pub(crate) fn answer_question<P: Pages>(
    alloc: Global,
    corrects: bool,
    pages: &P,
    question: Question,
    response: &mut Response,
) -> Result<(), AllocError>
    requires in_range { IsQuestion question }
    requires blank { IsBlank response.old }
    ensures { OnOk result (IsAnswer P.Pages corrects pages.now question response.new) }
{
    match question {
        Question::Form => show_form(alloc, corrects, response, StatusCode::OK),
        Question::Style => show_style(response),
        Question::Health => tell_health(pages, response),
        Question::Page(asked) => show(HTML, pages.page(asked), response),
        Question::Json(asked) => show(JSON, pages.json(asked), response),
        Question::Description => show_description(response),
        Question::Metrics => show_metrics(pages, response),
        Question::Choice(_) | Question::Unknown => tell_unknown(response),
        Question::BadQuery => show_form(alloc, corrects, response, StatusCode::BAD_REQUEST),
        Question::BadJson => refuse_query(response),
        Question::BadMethod => refuse_method(response),
        Question::BadFormMethod => refuse_form_method(corrects, response),
        Question::Misdirected => misdirect(response),
    }
}

/// Shows the form that asks for an account and a day, and what may be done there.
fn show_form(
    alloc: Global,
    corrects: bool,
    response: &mut Response,
    status: StatusCode,
) -> Result<(), AllocError>
    requires { IsBlank response.old }
    ensures { OnOk result (IsForm status corrects response.new) }
{
    let page = form_page(alloc, corrects)?;
    answer(response, status, HTML, Bytes::from_string(page)?)
}

/// Shows how the pages look.
fn show_style(response: &mut Response) -> Result<(), AllocError>
    requires { IsBlank response.old }
    ensures { OnOk result (IsStyle response.new) }
{
    answer(
        response,
        StatusCode::OK,
        CSS,
        Bytes::from_static(STYLE.as_bytes()),
    )
}

/// Shows how programs ask.
fn show_description(response: &mut Response) -> Result<(), AllocError>
    requires { IsBlank response.old }
    ensures { OnOk result (IsDescription response.new) }
{
    answer(
        response,
        StatusCode::OK,
        JSON,
        Bytes::from_static(OPENAPI.as_bytes()),
    )
}

/// Shows a page, a document of this content type, or says that it cannot be had.
pub(crate) fn show(
    content_type: &'static str,
    page: Result<String, PageFault>,
    response: &mut Response,
) -> Result<(), AllocError>
    requires visible { IsTrue (is_visible_text content_type.now) }
    requires blank { IsBlank response.old }
    ensures { OnOk result (IsPageOrNot content_type.now page response.new) }
{
    match page {
        Ok(page) => answer(
            response,
            StatusCode::OK,
            content_type,
            Bytes::from_string(page)?,
        ),
        Err(PageFault::Unavailable) => tell_unavailable(response),
        Err(PageFault::Memory) => Err(AllocError),
    }
}

/// Shows what a service has counted, if one is asked.
fn show_metrics<P: Pages>(pages: &P, response: &mut Response) -> Result<(), AllocError>
    requires { IsBlank response.old }
    ensures { OnOk result (IsMetrics P.is_metrics pages.now response.new) }
{
    match pages.metrics()? {
        Some(text) => answer(response, StatusCode::OK, METRICS, Bytes::from_string(text)?),
        None => tell_unknown(response),
    }
}

/// Tells whether pages can be made.
fn tell_health<P: Pages>(pages: &P, response: &mut Response) -> Result<(), AllocError>
    requires { IsBlank response.old }
    ensures { OnOk result (IsHealth response.new) }
{
    if pages.is_ready() {
        tell(response, StatusCode::OK, "ready\n")
    } else {
        tell_unavailable(response)
    }
}

/// Tells a line of text.
pub(crate) fn tell(
    response: &mut Response,
    status: StatusCode,
    text: &'static str,
) -> Result<(), AllocError>
    requires { IsBlank response.old }
    ensures { OnOk result (IsLine status text.now response.new) }
{
    answer(response, status, TEXT, Bytes::from_static(text.as_bytes()))
}

/// Tells that there is no such page.
fn tell_unknown(response: &mut Response) -> Result<(), AllocError>
    requires { IsBlank response.old }
    ensures { OnOk result (IsUnknown response.new) }
{
    tell(response, StatusCode::NOT_FOUND, "There is no such page.\n")
}

/// Tells that pages cannot be made now.
fn tell_unavailable(response: &mut Response) -> Result<(), AllocError>
    requires { IsBlank response.old }
    ensures { OnOk result (IsUnavailable response.new) }
{
    tell(
        response,
        StatusCode::SERVICE_UNAVAILABLE,
        "The journals cannot be read. The log of the page says why.\n",
    )
}

/// Refuses another query than a program's.
fn refuse_query(response: &mut Response) -> Result<(), AllocError>
    requires { IsBlank response.old }
    ensures { OnOk result (IsBadJson response.new) }
{
    tell(
        response,
        StatusCode::BAD_REQUEST,
        "Ask with account=A&day=D, where D is a number or a date.\n",
    )
}

/// Refuses another method than those that only read.
fn refuse_method(response: &mut Response) -> Result<(), AllocError>
    requires { IsBlank response.old }
    ensures { OnOk result (IsBadMethod response.new) }
{
    tell(
        response,
        StatusCode::METHOD_NOT_ALLOWED,
        "Pages are only read here.\n",
    )?;
    add(response, "allow", "GET, HEAD")
}

/// Refuses another method where a form is posted, if accounts are corrected.
fn refuse_form_method(corrects: bool, response: &mut Response) -> Result<(), AllocError>
    requires { IsBlank response.old }
    ensures { OnOk result (IsBadFormMethod corrects response.new) }
{
    if !corrects {
        return refuse_method(response);
    }
    tell(
        response,
        StatusCode::METHOD_NOT_ALLOWED,
        "Forms are posted here.\n",
    )?;
    add(response, "allow", "POST")
}

/// Tells that a request is for another host.
fn misdirect(response: &mut Response) -> Result<(), AllocError>
    requires { IsBlank response.old }
    ensures { OnOk result (IsMisdirected response.new) }
{
    tell(
        response,
        StatusCode::MISDIRECTED_REQUEST,
        "This page is for 127.0.0.1 and localhost.\n",
    )
}
