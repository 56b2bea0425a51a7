//! The jobs `follow` and `log`: a replica of a partition of a replicated log in NATS JetStream, by the texts of its fare file and its zone,
//! and the streams that are the log.
#![tactic(auto)]

mod connecting;
mod describing;
mod digests;
pub mod laws;
mod making;
mod openings;
mod replica;
mod reply_digest;

pub use describing::LogPlan;
pub use making::{Shows, check_log, make_log};
pub use pay_follow::{LogFault, Stop};
pub use pay_jetstream::Stream;
pub use replica::follow_partition;
