//! The texts of JetStream's API, in JSON: what a client writes to have streams and consumers made, and what it reads of a server's
//! answers. There is no socket in it.
#![tactic(auto)]

mod answer;
mod asking;
mod fault;
mod server;
mod stream;
mod value;
mod version;

pub use answer::{read_place, read_taken};
pub use asking::{
    CONNECT_OPTIONS, StreamPlan, consumer_text, digests_text, last_text, stream_text,
};
pub use fault::ApiFault;
pub use server::{Server, read_server};
pub use stream::{Stream, read_stream};
