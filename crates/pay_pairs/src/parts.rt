ghost use Rattle.std.specs.Prelude.{◌≡◌, IfOk};
ghost use Rattle.pay_rules.specs.Legs.{allowed_seconds_between, is_leg, legs, AreParts};

use pay_rules::{Kind, Leg, RailPart, Touch};
use pay_tables::{Editions, Tables, span};
use std::alloc::{AllocError, Global};

/// How many seconds may pass between two taps that are a leg.
fn allowed_seconds_between(tables: &Tables, entry: &Touch, exit: &Touch) -> u32
    ensures { result ≡ allowed_seconds_between tables.now entry.now exit.now }
{
    if entry.place == exit.place {
        return tables.rules().same_limit;
    }
    let stations = [tables.station(entry.place), tables.station(exit.place)];
    tables.max_seconds(span(&stations))
}

/// Whether a rail tap and the next one are a leg: one on the way in and one on the way out, at most so
/// many seconds later as are allowed between their places on the service day of the way in.
pub fn is_leg(editions: &Editions, entry: &Touch, exit: &Touch) -> bool
    ensures { result ≡ is_leg editions.now entry.now exit.now }
{
    if entry.kind != Kind::In || exit.kind != Kind::Out {
        return false;
    }
    let tables = editions.on(entry.stamp.day());
    let allowed = allowed_seconds_between(tables, entry, exit);
    exit.stamp.utc() <= entry.stamp.utc() + u64::from(allowed)
}

/// The legs and the lone taps of an account's rail taps, in order.
///
/// Of the rail taps in their order, neighbours are a leg if they are a tap on the way in and one on the
/// way out, at most so many seconds apart: at one and the same station `same_limit`, and at two
/// stations the allowed time of their span, by the edition of the first one's service day. Every other rail tap is a lone one. An `Err` is out of
/// memory.
pub fn legs(alloc: Global, editions: &Editions, taps: &[Touch]) -> Result<Vec<RailPart>, AllocError>
    ensures described { IfOk result (λ parts. AreParts editions.now taps.now parts.items) }
    ensures computed { IfOk result (λ parts. parts.items ≡ legs editions.now taps.now) }
{
    let mut parts = Vec::with_capacity(alloc, taps.len())?;
    // The last tap, where it is in no part yet.
    let mut waiting: Option<Touch> = None;
    for tap in taps {
        match waiting {
            Some(entry) if is_leg(editions, &entry, tap) => {
                parts.push(RailPart::Leg(Leg { entry, exit: *tap }))?;
                waiting = None;
            }
            Some(lone) => {
                parts.push(RailPart::Lone(lone))?;
                waiting = Some(*tap);
            }
            None => waiting = Some(*tap),
        }
    }
    if let Some(lone) = waiting {
        parts.push(RailPart::Lone(lone))?;
    }
    Ok(parts)
}
