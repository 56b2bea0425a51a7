use std::snapshot::Snapshot;

/// What was published, of which nothing is in memory: only contracts speak of it.
#[derive(Drop)]
pub(crate) enum Published {
    /// Nothing.
    None,
    /// What was published before, and then this, under the place of its line.
    Then {
        earlier: Snapshot<Published>,
        place: Snapshot<u64>,
        reply: Snapshot<Vec<u8>>,
    },
}
