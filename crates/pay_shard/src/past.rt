use crate::block::JournalBlock;
use std::snapshot::Snapshot;

/// What a journal has forgotten, of which nothing is in memory: only contracts speak of it.
#[derive(Drop)]
pub(crate) enum Past {
    /// Nothing.
    None,
    /// What it had forgotten before, and then these blocks.
    Then {
        earlier: Snapshot<Past>,
        blocks: Snapshot<Vec<JournalBlock>>,
    },
}
