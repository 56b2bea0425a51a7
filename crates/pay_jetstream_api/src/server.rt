//! What a server says of itself.
ghost use Rattle.std.specs.Prelude.{◌≡◌, ◌≢◌, Ok, Err, MatchResult};
ghost use Rattle.serde_json.specs.View.{view};
ghost use Rattle.pay_jetstream_api.specs.Answers.{server_in, server_of};
ghost use Rattle.pay_jetstream_api.specs.declared.fault.ApiFault.TheVariants.{Memory};

use crate::fault::ApiFault;
use crate::value::{is_said, text_at, value_of};
use crate::version::version_of;
use serde_json::Value;
use std::alloc::Global;

/// What a server says of itself first, in `INFO`.
#[derive(Clone, Copy, Debug, PartialEq, Eq)]
pub struct Server {
    /// The first number of its version, 2 of `2.10.27`.
    pub major: u64,
    /// The second, 10 of `2.10.27`.
    pub minor: u64,
    /// Whether it takes messages with headers.
    pub has_headers: bool,
    /// Whether JetStream is on.
    pub has_jetstream: bool,
}

/// Reads what a server says of itself. A version begins with two numbers, each with a dot behind it. What is not said to be so is not so.
pub fn read_server(alloc: Global, text: &[u8]) -> Result<Server, ApiFault>
    ensures { MatchResult result (λ server. server_of text.now ≡ Ok server) (λ fault. fault ≢ Memory → server_of text.now ≡ Err fault) }
{
    let info = value_of(alloc, text)?;
    server_in(&info)
}

/// What a value says of a server.
fn server_in(info: &Value) -> Result<Server, ApiFault>
    ensures { result ≡ server_in (view info.now) }
{
    let Some(version) = text_at(info, "/version") else {
        return Err(ApiFault::NotUnderstood);
    };
    let Some((major, minor)) = version_of(version) else {
        return Err(ApiFault::NotUnderstood);
    };
    Ok(Server {
        major,
        minor,
        has_headers: is_said(info, "/headers"),
        has_jetstream: is_said(info, "/jetstream"),
    })
}
