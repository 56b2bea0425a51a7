//! Who posts a form.
ghost use Rattle.std.specs.Prelude.{◌≡◌, Err, Ok, IfErr, IfOk, option_copied};
ghost use Rattle.http.specs.Request.{head_of};
ghost use Rattle.pay_web.specs.Gates.{clerk_at, clerk_by_secret, is_form, is_from};

use crate::hosts::Hosts;
use bytes::Bytes;
use http::Request;
use http::header::{AUTHORIZATION, CONTENT_TYPE, ORIGIN};
use pay_clerks::{Clerk, Clerks};

/// Why nobody's form is read.
#[derive(Clone, Copy)]
pub(crate) enum Stranger {
    /// It does not come from a page of this site.
    Foreign,
    /// The body is none of a form.
    OtherType,
    /// It comes from no clerk.
    Nobody,
}

/// The clerk who posts a form.
pub(crate) fn clerk_at<'a>(
    hosts: &Hosts,
    clerks: &'a Clerks,
    request: &Request<Bytes>,
) -> Result<&'a Clerk, Stranger>
    ensures clerk { IfOk result (λ clerk. clerk_at hosts.now clerks.now (head_of request.now) ≡ Ok clerk.now) }
    ensures stranger { IfErr result (λ stranger. clerk_at hosts.now clerks.now (head_of request.now) ≡ Err stranger) }
{
    if !is_from(hosts, request) {
        return Err(Stranger::Foreign);
    }
    if !is_form(request) {
        return Err(Stranger::OtherType);
    }
    match clerk_by_secret(clerks, request) {
        Some(clerk) => Ok(clerk),
        None => Err(Stranger::Nobody),
    }
}

/// The clerk whose number and secret a request has.
fn clerk_by_secret<'a>(clerks: &'a Clerks, request: &Request<Bytes>) -> Option<&'a Clerk>
    ensures { option_copied result ≡ clerk_by_secret clerks.now (head_of request.now) }
{
    clerks.of(request.headers().get(AUTHORIZATION)?.as_bytes())
}

/// Whether a request comes from a page of one of these hosts, by its field `Origin`.
fn is_from(hosts: &Hosts, request: &Request<Bytes>) -> bool
    ensures { result ≡ is_from hosts.now (head_of request.now) }
{
    match request.headers().get(ORIGIN) {
        Some(origin) => hosts.is_origin(origin.as_bytes()),
        None => false,
    }
}

/// Whether the body of a request is that of a form.
fn is_form(request: &Request<Bytes>) -> bool
    ensures { result ≡ is_form (head_of request.now) }
{
    match request.headers().get(CONTENT_TYPE) {
        Some(kind) => kind.as_bytes() == "application/x-www-form-urlencoded".as_bytes(),
        None => false,
    }
}
