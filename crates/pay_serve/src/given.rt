//! What a service is given.

use crate::plan::Plan;
use jiff::tz::TimeZone;
use pay_tables::Editions;
use std::sync::Arc;

/// What a service is given: by what it prices and which clock it has, what it serves, and its journals.
#[derive(Drop)]
pub struct Given<'a, K> {
    /// The fare file.
    pub editions: Arc<Editions>,
    /// The zone.
    pub zone: TimeZone<'static>,
    /// What is served.
    pub plan: Plan,
    /// What the journals have, by their numbers from 0 on.
    pub texts: &'a [Vec<u8>],
    /// What keeps the lines that each shard newly accepts.
    pub keepers: Vec<K>,
}
