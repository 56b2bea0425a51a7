//! What a request asks for.
ghost use Rattle.std.specs.Prelude.{◌≡◌, IfSome, option_copied};
ghost use Rattle.http.specs.Request.{head_of};
ghost use Rattle.http_uri.specs.Uri.{uri_query};
ghost use Rattle.pay_web.specs.Asked.{IsAsked};
ghost use Rattle.pay_web.specs.Questions.{IsQuestion, choice_of, choice_question, is_for, json_question, method_question, page_question, path_question, question_of};

use crate::asked::{Asked, asked_by};
use crate::hosts::Hosts;
use crate::wish::{Form, form_at};
use bytes::Bytes;
use http::header::HOST;
use http::{Method, Request, Uri};

/// What a request asks for, or why it is refused.
#[derive(Clone, Copy)]
pub(crate) enum Question {
    /// `/`: the form that asks for an account and a day.
    Form,
    /// `/style.css`: how the pages look.
    Style,
    /// `/healthz`: whether pages can be made.
    Health,
    /// `/day?account=A&day=D` or `/week?account=A&day=D`: a page of an account.
    Page(Asked),
    /// `/day.json?account=A&day=D` or `/week.json?account=A&day=D`: the same for programs.
    Json(Asked),
    /// `/openapi.json`: how programs ask.
    Description,
    /// `/metrics`: what a service has counted.
    Metrics,
    /// `/correct?account=A&day=D`: what to correct of an account.
    Choice(Asked),
    /// The path of a page with another query.
    BadQuery,
    /// A path for programs with another query.
    BadJson,
    /// Another path.
    Unknown,
    /// Another method than GET or HEAD, where pages are read.
    BadMethod,
    /// The same where a form is posted, if accounts are corrected.
    BadFormMethod,
    /// A request to another host than this machine, as a page of another site can send one.
    Misdirected,
}

/// What a request asks for at a page that these hosts name.
pub(crate) fn question_of(hosts: &Hosts, request: &Request<Bytes>) -> Question
    ensures question { result ≡ question_of hosts.now (head_of request.now) }
    ensures in_range { IsQuestion result }
{
    if !is_for(hosts, request) {
        return Question::Misdirected;
    }
    if *request.method() != Method::GET && *request.method() != Method::HEAD {
        return method_question(form_at(request.uri().path()));
    }
    path_question(request.uri())
}

/// Another method, at the path of a form or of none.
fn method_question(form: Option<Form>) -> Question
    ensures question { result ≡ method_question form }
    ensures in_range { IsQuestion result }
{
    match form {
        Some(_) => Question::BadFormMethod,
        None => Question::BadMethod,
    }
}

/// Whether a request is for one of these hosts, by its `Host` field, and in a form that names no other.
pub(crate) fn is_for(hosts: &Hosts, request: &Request<Bytes>) -> bool
    ensures { result ≡ is_for hosts.now (head_of request.now) }
{
    if request.uri().authority().is_some() {
        return false;
    }
    match request.headers().get(HOST) {
        Some(host) => hosts.is_among(host.as_bytes()),
        None => false,
    }
}

/// What a path and a query ask for.
fn path_question(uri: &Uri) -> Question
    ensures question { result ≡ path_question uri.now }
    ensures in_range { IsQuestion result }
{
    match uri.path() {
        "/" => Question::Form,
        "/style.css" => Question::Style,
        "/healthz" => Question::Health,
        "/day" => page_question(uri, false),
        "/week" => page_question(uri, true),
        "/day.json" => json_question(uri, false),
        "/week.json" => json_question(uri, true),
        "/openapi.json" => Question::Description,
        "/metrics" => Question::Metrics,
        "/correct" => choice_question(uri),
        _ => Question::Unknown,
    }
}

/// What a query asks for at the path of a day or of a week.
fn page_question(uri: &Uri, week: bool) -> Question
    ensures question { result ≡ page_question week (uri_query uri.now) }
    ensures in_range { IsQuestion result }
{
    match uri.query() {
        Some(query) => match asked_by(query, week) {
            Some(asked) => Question::Page(asked),
            None => Question::BadQuery,
        },
        None => Question::BadQuery,
    }
}

/// What a query asks for at the same for programs.
fn json_question(uri: &Uri, week: bool) -> Question
    ensures question { result ≡ json_question week (uri_query uri.now) }
    ensures in_range { IsQuestion result }
{
    match uri.query() {
        Some(query) => match asked_by(query, week) {
            Some(asked) => Question::Json(asked),
            None => Question::BadJson,
        },
        None => Question::BadJson,
    }
}

/// What a query asks for at the path of what to correct.
fn choice_question(uri: &Uri) -> Question
    ensures question { result ≡ choice_question (uri_query uri.now) }
    ensures in_range { IsQuestion result }
{
    match uri.query() {
        Some(query) => match asked_by(query, false) {
            Some(asked) => Question::Choice(asked),
            None => Question::BadQuery,
        },
        None => Question::BadQuery,
    }
}

/// The account and the day of what to correct, if that is asked for.
pub(crate) fn choice_of(question: Question) -> Option<Asked>
    requires { IsQuestion question }
    ensures choice { result ≡ choice_of question }
    ensures in_range { IfSome result IsAsked }
{
    match question {
        Question::Choice(asked) => Some(asked),
        _ => None,
    }
}
