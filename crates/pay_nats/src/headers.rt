//! The headers of a message.
ghost use Rattle.std.specs.Prelude.{◌≡◌, ◌++◌, None, find, length, map, take, option_copied, option_map, IfSome, OnErr, OnOk};
ghost use Rattle.std.specs.List.{flat_map, slice_split};
ghost use Rattle.pay_nats.specs.HeaderReading.{before_cr, without_front, field_at, field_in, is_of, status_at};
ghost use Rattle.pay_nats.specs.Headers.{AreHeaders, HeadersOf, field_bytes, field_of, HasField, HasStatus, headers_bytes, value_in};
ghost use Rattle.pay_nats.specs.Parts.{is_byte};

use crate::parts::parted;
use crate::subject::if_text;
use std::alloc::AllocError;

/// A field of the headers.
#[derive(Clone, Copy, Debug, PartialEq, Eq)]
pub struct Field<'a> {
    /// Its name, as `Nats-Msg-Id`: visible bytes without a colon.
    pub name: &'a [u8],
    /// Its value, without a CR or an LF.
    pub value: &'a [u8],
}

/// What the server says of a message in the first line of its headers, as `100 Idle Heartbeat`, if it says something.
pub fn status_of(headers: &[u8]) -> Option<&[u8]>
    ensures found { IfSome result (λ status. HasStatus headers.now status.now) }
    ensures whole { (it : HeadersOf) → AreHeaders it → headers.now ≡ headers_bytes it → option_copied result ≡ it.status }
{
    status_at(headers)
}

/// The value of the first field with a name, if there is one.
pub fn value_of<'a>(headers: &'a [u8], name: &[u8]) -> Option<&'a [u8]>
    ensures found { IfSome result (λ value. HasField headers.now (record { name = name.now; value = value.now })) }
    ensures whole { (it : HeadersOf) → AreHeaders it → headers.now ≡ headers_bytes it → option_copied result ≡ value_in name.now it.fields }
{
    value_at(headers, name)
}

/// The same, a line at a time.
fn value_at<'a>(headers: &'a [u8], name: &[u8]) -> Option<&'a [u8]>
    ensures { option_copied result ≡ option_map (λ it. it.value) (field_at headers.now name.now) }
{
    Some(field_at(headers, name)?.value)
}

/// The status in the first line.
#[tactic(auto, unfolding(crate::specs::HeaderReading::status_at))]
fn status_at(headers: &[u8]) -> Option<&[u8]>
    ensures { option_copied result ≡ status_at headers.now }
{
    let (line, _) = parted(headers, b'\n')?;
    if_text(before_cr(without_front(line, b"NATS/1.0 ")?)?)
}

/// The first field with a name.
#[tactic(auto, unfolding(crate::specs::HeaderReading::field_at))]
fn field_at<'a>(headers: &'a [u8], name: &[u8]) -> Option<Field<'a>>
    ensures { option_map field_of result ≡ field_at headers.now name.now }
{
    let (_, lines) = parted(headers, b'\n')?;
    field_in(find_line(lines, name)?)
}

/// The first line that is a field with a name, without its LF.
fn find_line<'a>(lines: &'a [u8], name: &[u8]) -> Option<&'a [u8]>
    ensures { option_copied result ≡ find (is_of name.now) (slice_split (is_byte 10) lines.now) }
{
    lines
        .split(|byte| *byte == b'\n')
        .find(|line| is_of(line, name))
}

/// Whether a line is a field with a name.
fn is_of(line: &[u8], name: &[u8]) -> bool
    ensures { result ≡ is_of name.now line.now }
{
    match field_in(line) {
        Some(field) => field.name == name,
        None => false,
    }
}

/// The field of a line without its LF.
#[tactic(auto, unfolding(crate::specs::HeaderReading::field_in))]
fn field_in(line: &[u8]) -> Option<Field<'_>>
    ensures { option_map field_of result ≡ field_in line.now }
{
    let (name, rest) = parted(line, b':')?;
    let value = before_cr(without_front(rest, b" ")?)?;
    Some(Field { name, value })
}

/// A text without what it begins with.
fn without_front<'a>(text: &'a [u8], front: &[u8]) -> Option<&'a [u8]>
    ensures { option_copied result ≡ without_front front.now text.now }
{
    text.strip_prefix(front)
}

/// A text without the CR at its end.
fn before_cr(text: &[u8]) -> Option<&[u8]>
    ensures { option_copied result ≡ before_cr text.now }
{
    text.strip_suffix(b"\r")
}

/// Writes headers with some fields and without a status at the end: what [`Publication`](crate::Publication) takes. Without memory nothing
/// is written.
pub fn write_headers(out: &mut Vec<u8>, fields: &[Field<'_>]) -> Result<(), AllocError>
    ensures ok { OnOk result (out.new.items ≡ out.old.items ++ headers_bytes (record { status = None; fields = map field_of fields.now })) }
    ensures err { OnErr result (out.new.items ≡ out.old.items) }
{
    let before = out.len();
    let written = push_headers(out, fields);
    if written.is_err() {
        out.truncate(before);
    }
    written
}

/// The same, where a part may be written without memory for the rest.
fn push_headers(out: &mut Vec<u8>, fields: &[Field<'_>]) -> Result<(), AllocError>
    ensures ok { OnOk result (out.new.items ≡ out.old.items ++ headers_bytes (record { status = None; fields = map field_of fields.now })) }
    ensures kept { take (length out.old.items) out.new.items ≡ out.old.items }
{
    out.extend_from_slice(b"NATS/1.0\r\n")?;
    push_fields(out, fields)?;
    out.extend_from_slice(b"\r\n")
}

fn push_fields(out: &mut Vec<u8>, fields: &[Field<'_>]) -> Result<(), AllocError>
    ensures ok { OnOk result (out.new.items ≡ out.old.items ++ flat_map field_bytes (map field_of fields.now)) }
    ensures kept { take (length out.old.items) out.new.items ≡ out.old.items }
{
    for field in fields {
        push_field(out, field)?;
    }
    Ok(())
}

fn push_field(out: &mut Vec<u8>, field: &Field<'_>) -> Result<(), AllocError>
    ensures ok { OnOk result (out.new.items ≡ out.old.items ++ field_bytes (field_of field.now)) }
    ensures kept { take (length out.old.items) out.new.items ≡ out.old.items }
{
    out.extend_from_slice(field.name)?;
    out.extend_from_slice(b": ")?;
    out.extend_from_slice(field.value)?;
    out.extend_from_slice(b"\r\n")
}
