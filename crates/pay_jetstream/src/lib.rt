//! A partition of a log in NATS JetStream: [`JetStream`] reads its lines from the frames of a server, and publishes the replies, at a
//! connection that has its subscription already.
#![tactic(auto)]

mod client;
mod jet_stream;
mod opening;
mod published;
mod said;
mod streams;
mod whole;
mod writing;

pub use client::Client;
pub use jet_stream::JetStream;
pub use opening::{PartitionPlan, is_had, open_partition, stream_at};
pub use pay_jetstream_api::{Stream, StreamPlan};
pub use streams::{last_message, make_digests, make_stream, store};
