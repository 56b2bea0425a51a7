//! What tests are given: the sample fare file, and taps of Monday, 2024-01-08, when London's clocks show UTC.

use crate::sample::SAMPLE_FARES;
use jiff::tz::TimeZone;
use pay_day::Moment;
use pay_editions::read_editions;
use pay_rules::{Kind, Tap, Touch};
use pay_tables::Editions;
use pay_zone::Zone;
use std::fmt::Debug;
use std::process::Abort;
use std::sync::Arc;

/// So what was found is what is wanted. One function has the only comparison, since what a comparison costs to be
/// proved is much, and a call of this one little.
pub fn expect_same<R: Abort, T: Copy + PartialEq + Debug>(rt: &R, found: T, wanted: T) {
    assert_eq!(rt; found, wanted);
}

/// So a list was found, and these are its items.
pub fn expect_list<R: Abort, T: PartialEq + Debug + Drop, F: Copy + PartialEq + Debug>(
    rt: &R,
    found: Result<Vec<T>, F>,
    wanted: Result<&[T], F>,
) {
    match found {
        Ok(list) => expect_same(rt, Ok(list.as_slice()), wanted),
        Err(fault) => expect_same(rt, Err(fault), wanted),
    }
}

/// Monday, 2024-01-08.
pub const MONDAY: u32 = 19_730;

/// What a test tells `tests/allocations.py`, by asking for so many bytes, which nothing else does: memory may be refused from here on.
pub const MAY_BE_REFUSED: usize = 1_000_003;
/// It may not any more.
pub const MAY_NOT_BE: usize = 1_000_033;
/// A call has said that it was.
pub const WAS_REFUSED: usize = 1_000_037;

/// Tells one of these.
pub fn tell<R: AllocGlobal>(rt: &R, bytes: usize) {
    let _ = Vec::<u8>::with_capacity(rt.alloc(), bytes);
}

/// The sample fare file, whose bands are that of the buses (525 a day, 2470 a week), of zones 1 to 2
/// (890, 4470) and of zones 1 to 3 (1050, 5250).
pub fn sample<R: Abort + AllocGlobal>(rt: &R) -> Editions {
    read_editions(rt.alloc(), SAMPLE_FARES).expect(rt, "the sample")
}

/// The zone of London.
pub fn london<R: Abort + AllocGlobal>(rt: &R) -> Zone<'static> {
    let zone = TimeZone::posix("GMT0BST,M3.5.0/1,M10.5.0").expect(rt, "a rule");
    Zone::new(rt.alloc(), zone)
}

/// The same for several, and the zone of London.
pub fn sample_in_london<R: Abort + AllocGlobal>(rt: &R) -> (Arc<Editions>, Zone<'static>) {
    let editions = Arc::new(rt.alloc(), sample(rt)).expect(rt, "memory");
    (editions, london(rt))
}

/// A tap of account 7 by reader 1, at a second of the Monday.
pub fn tap_at<R: Abort>(rt: &R, seq: u32, second: u32, place: u16, kind: Kind) -> Tap {
    let utc = u64::from(MONDAY) * 86_400 + u64::from(second);
    Tap {
        account: 7,
        reader: 1,
        seq,
        stamp: Moment::from_parts(utc, MONDAY, second).expect(rt, "a moment"),
        place,
        kind,
    }
}

/// The same tap as it is priced. Its number is its second.
pub fn touch_at<R: Abort>(rt: &R, second: u32, place: u16, kind: Kind) -> Touch {
    Touch::from(tap_at(rt, second, second, place, kind))
}
