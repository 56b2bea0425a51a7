//! The fields of each answer.
ghost use Rattle.std.specs.Prelude.{◌≡◌, ◌++◌, ◌∷◌, [], IsTrue, OnOk};
ghost use Rattle.http_header.specs.FieldName.{is_header_name};
ghost use Rattle.http_header.specs.FieldValue.{is_visible_text};
ghost use Rattle.http_server.specs.Response.{IsBlank, IsResponse, fields_of};
ghost use Rattle.pay_web.specs.Fields.{fields, kept_fields, policy_fields};

use bytes::Bytes;
use http::{HeaderName, HeaderValue, StatusCode};
use http_server::Response;
use std::alloc::AllocError;

/// Adds a field.
pub(crate) fn add(
    response: &mut Response,
    name: &'static str,
    value: &'static str,
) -> Result<(), AllocError>
    requires name { IsTrue (is_header_name name.now) }
    requires value { IsTrue (is_visible_text value.now) }
    ensures fields { OnOk result (fields_of response.new ≡ fields_of response.old ++ (name.now, value.now) ∷ []) }
    ensures status { response.new.status ≡ response.old.status }
    ensures body { response.new.body ≡ response.old.body }
{
    response.add_header(
        HeaderName::from_static(name),
        HeaderValue::from_static(value),
    )
}

/// Adds the fields by which a browser runs no script of a page, and shows it in no other page.
fn add_policy(response: &mut Response) -> Result<(), AllocError>
    ensures fields { OnOk result (fields_of response.new ≡ fields_of response.old ++ policy_fields) }
    ensures status { response.new.status ≡ response.old.status }
    ensures body { response.new.body ≡ response.old.body }
{
    add(
        response,
        "content-security-policy",
        "default-src 'none'; style-src 'self'; form-action 'self'; frame-ancestors 'none'; base-uri 'none'",
    )?;
    add(response, "x-content-type-options", "nosniff")?;
    add(response, "cross-origin-resource-policy", "same-origin")?;
    add(response, "cross-origin-opener-policy", "same-origin")
}

/// Adds the fields by which nothing is kept of an answer, and no other site learns its address; and the one that ends the connection.
fn add_kept(response: &mut Response) -> Result<(), AllocError>
    ensures fields { OnOk result (fields_of response.new ≡ fields_of response.old ++ kept_fields) }
    ensures status { response.new.status ≡ response.old.status }
    ensures body { response.new.body ≡ response.old.body }
{
    add(response, "cache-control", "no-store")?;
    add(response, "referrer-policy", "same-origin")?;
    add(response, "connection", "close")
}

/// Answers with a status and all fields, and no body yet, which is to be of this content type.
pub(crate) fn begin(
    response: &mut Response,
    status: StatusCode,
    content_type: &'static str,
) -> Result<(), AllocError>
    requires blank { IsBlank response.old }
    requires visible { IsTrue (is_visible_text content_type.now) }
    ensures { OnOk result (IsResponse status (fields content_type.now) [] response.new) }
{
    response.status = status;
    add_policy(response)?;
    add_kept(response)?;
    add(response, "content-type", content_type)
}

/// Answers with a status and a body of this content type.
pub(crate) fn answer(
    response: &mut Response,
    status: StatusCode,
    content_type: &'static str,
    body: Bytes,
) -> Result<(), AllocError>
    requires blank { IsBlank response.old }
    requires visible { IsTrue (is_visible_text content_type.now) }
    ensures { OnOk result (IsResponse status (fields content_type.now) body response.new) }
{
    begin(response, status, content_type)?;
    response.body.push(body)
}
