ghost use Rattle.std.specs.Prelude.{◌≡◌};
ghost use Rattle.pay_rules.specs.Legs.{allowed_seconds_between};
ghost use Rattle.pay_why.specs.LoneTaps.{without_exit, without_entry, lone_reason};

use crate::lone::LoneReason;
use pay_rules::{Kind, Touch};
use pay_tables::{Editions, Tables, span};

/// How many seconds may pass between two taps that are a leg.
fn allowed_seconds_between(tables: &Tables, entry: &Touch, exit: &Touch) -> u32
    ensures { result ≡ allowed_seconds_between tables.now entry.now exit.now }
{
    if entry.place == exit.place {
        return tables.rules().same_limit;
    }
    let stations = [tables.station(entry.place), tables.station(exit.place)];
    tables.max_seconds(span(&stations))
}

/// Why a tap on the way in has no partner, by the rail tap after it.
fn without_exit(editions: &Editions, entry: &Touch, after: &Option<Touch>) -> LoneReason
    ensures { result ≡ without_exit editions.now entry.now after.now }
{
    match after {
        Some(exit) if exit.kind == Kind::Out => {
            let tables = editions.on(entry.stamp.day());
            LoneReason::LateExit {
                exit: exit.stamp,
                allowed: allowed_seconds_between(tables, entry, exit),
            }
        }
        _ => LoneReason::NoExit,
    }
}

/// Why a tap on the way out has no partner, by the rail tap before it.
fn without_entry(editions: &Editions, before: &Option<Touch>, exit: &Touch) -> LoneReason
    ensures { result ≡ without_entry editions.now before.now exit.now }
{
    match before {
        Some(entry) if entry.kind == Kind::In => {
            let tables = editions.on(entry.stamp.day());
            LoneReason::EarlyEntry {
                entry: entry.stamp,
                allowed: allowed_seconds_between(tables, entry, exit),
            }
        }
        _ => LoneReason::NoEntry,
    }
}

/// Why a rail tap stands alone, where `before` and `after` are the rail taps right before it and right
/// after it, of whichever day.
///
/// A tap on the way in would be a leg with one on the way out right after it, if that came within the
/// seconds that are allowed on its service day. A tap on the way out is judged by the one before it alike.
pub fn lone_reason(
    editions: &Editions,
    before: &Option<Touch>,
    tap: &Touch,
    after: &Option<Touch>,
) -> LoneReason
    ensures { result ≡ lone_reason editions.now before.now tap.now after.now }
{
    if tap.kind == Kind::In {
        without_exit(editions, tap, after)
    } else {
        without_entry(editions, before, tap)
    }
}
