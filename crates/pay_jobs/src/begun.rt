//! What is there once texts are read.

use jiff::tz::TimeZone;
use pay_book::Book;
use pay_journal::Replayed;
use pay_shard::LocalDesk;
use pay_tables::Editions;
use pay_zone::Zone;
use std::sync::Arc;

/// A session that can be held: its zone, and a desk that has what its journal gives back.
#[derive(Drop)]
pub struct Begun {
    /// The zone.
    pub zone: Zone<'static>,
    /// The desk.
    pub desk: LocalDesk<Book>,
    /// How much of the journal it has.
    pub replayed: Replayed,
}

/// The fare file and the zone of a service.
#[derive(Drop)]
pub struct FaresAndZone {
    /// The fare file.
    pub editions: Arc<Editions>,
    /// The zone.
    pub zone: TimeZone<'static>,
}
