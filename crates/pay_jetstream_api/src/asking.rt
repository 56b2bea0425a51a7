//! What a client writes.
ghost use Rattle.std.specs.Prelude.{◌≡◌, Some, IfOk, string_bytes};
ghost use Rattle.serde_json.specs.Read.{read};
ghost use Rattle.serde_json.specs.View.{view};
ghost use Rattle.serde_json.specs.Written.{compact_text};
ghost use Rattle.pay_jetstream_api.specs.Asking.{consumer_config, consumer_value, digests_value, last_value, plan_of, stream_value};

use serde_json::{Value, json};
use std::alloc::{AllocError, Global};

/// What a client says of itself in `CONNECT`.
pub const CONNECT_OPTIONS: &str =
    r#"{"verbose":false,"pedantic":false,"headers":true,"no_responders":true,"lang":"rattle","name":"farebox","version":"0","protocol":1}"#;

/// A stream that is to be made.
#[derive(Clone, Copy, Debug, PartialEq, Eq)]
pub struct StreamPlan<'a> {
    /// Its name, without dots, spaces and wildcards.
    pub name: &'a str,
    /// The subject of its messages, perhaps with wildcards.
    pub subject: &'a str,
    /// What it says of itself.
    pub description: &'a str,
    /// On how many servers it is kept, 1 to 5.
    pub replicas: u64,
}

/// Writes what `STREAM.CREATE` takes, for a stream in files that forgets no message.
pub fn stream_text(alloc: Global, plan: &StreamPlan<'_>) -> Result<String, AllocError>
    ensures text { IfOk result (λ text. string_bytes text ≡ compact_text (stream_value (plan_of plan.now))) }
    ensures reads_back { IfOk result (λ text. read (string_bytes text) ≡ Some (stream_value (plan_of plan.now))) }
{
    let value = stream_value(alloc, plan)?;
    value.to_string(alloc)
}

/// Writes the same for a stream that takes one message of each subject, and refuses a second.
pub fn digests_text(
    alloc: Global,
    name: &str,
    subject: &str,
    replicas: u64,
) -> Result<String, AllocError>
    ensures text { IfOk result (λ text. string_bytes text ≡ compact_text (digests_value name.now subject.now replicas)) }
    ensures reads_back { IfOk result (λ text. read (string_bytes text) ≡ Some (digests_value name.now subject.now replicas)) }
{
    let value = digests_value(alloc, name, subject, replicas)?;
    value.to_string(alloc)
}

/// Writes what `CONSUMER.CREATE` takes, for a consumer that sends `deliver` the messages of a stream from a place on, each once and without
/// acknowledgements, and a sign of life each second.
pub fn consumer_text(
    alloc: Global,
    stream: &str,
    deliver: &str,
    place: u64,
) -> Result<String, AllocError>
    ensures text { IfOk result (λ text. string_bytes text ≡ compact_text (consumer_value stream.now deliver.now place)) }
    ensures reads_back { IfOk result (λ text. read (string_bytes text) ≡ Some (consumer_value stream.now deliver.now place)) }
{
    let value = consumer_value(alloc, stream, deliver, place)?;
    value.to_string(alloc)
}

/// Writes what `DIRECT.GET` takes, for the last message of a subject.
pub fn last_text(alloc: Global, subject: &str) -> Result<String, AllocError>
    ensures text { IfOk result (λ text. string_bytes text ≡ compact_text (last_value subject.now)) }
    ensures reads_back { IfOk result (λ text. read (string_bytes text) ≡ Some (last_value subject.now)) }
{
    let value = last_value(alloc, subject)?;
    value.to_string(alloc)
}

fn stream_value(alloc: Global, plan: &StreamPlan<'_>) -> Result<Value, AllocError>
    ensures { IfOk result (λ value. view value ≡ stream_value (plan_of plan.now)) }
{
    json!(in alloc; {
        "name": plan.name,
        "description": plan.description,
        "subjects": [plan.subject],
        "retention": "limits",
        "discard": "new",
        "storage": "file",
        "num_replicas": plan.replicas,
        "deny_delete": true,
        "deny_purge": true,
        "allow_direct": true
    })
}

fn digests_value(
    alloc: Global,
    name: &str,
    subject: &str,
    replicas: u64,
) -> Result<Value, AllocError>
    ensures { IfOk result (λ value. view value ≡ digests_value name.now subject.now replicas) }
{
    json!(in alloc; {
        "name": name,
        "subjects": [subject],
        "retention": "limits",
        "discard": "new",
        "storage": "file",
        "num_replicas": replicas,
        "deny_delete": true,
        "deny_purge": true,
        "allow_direct": true,
        "max_msgs_per_subject": 1u64,
        "discard_new_per_subject": true
    })
}

fn consumer_value(
    alloc: Global,
    stream: &str,
    deliver: &str,
    place: u64,
) -> Result<Value, AllocError>
    ensures { IfOk result (λ value. view value ≡ consumer_value stream.now deliver.now place) }
{
    let config = consumer_config(alloc, deliver, place)?;
    json!(in alloc; {"stream_name": stream, "config": config})
}

fn consumer_config(alloc: Global, deliver: &str, place: u64) -> Result<Value, AllocError>
    ensures { IfOk result (λ value. view value ≡ consumer_config deliver.now place) }
{
    json!(in alloc; {
        "deliver_subject": deliver,
        "deliver_policy": "by_start_sequence",
        "opt_start_seq": place,
        "ack_policy": "none",
        "flow_control": true,
        "idle_heartbeat": 1000000000u64,
        "max_deliver": 1u64,
        "mem_storage": true,
        "num_replicas": 1u64
    })
}

fn last_value(alloc: Global, subject: &str) -> Result<Value, AllocError>
    ensures { IfOk result (λ value. view value ≡ last_value subject.now) }
{
    json!(in alloc; {"last_by_subj": subject})
}
