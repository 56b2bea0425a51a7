//! Whose items are whose in the queues.

use pay_mailbox::Senders;
use pay_shard::{Answer, Entry};

/// Entries are from the lane that they name.
pub struct ByLane;

impl Senders<Entry> for ByLane {
    ghost sender = { λ entry. entry.lane };
}

/// Answers are from the shard that they name.
pub struct ByShard;

impl Senders<Answer> for ByShard {
    ghost sender = { λ answer. answer.shard };
}
