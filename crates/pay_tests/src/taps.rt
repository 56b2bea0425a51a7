use crate::given::{MAY_BE_REFUSED, WAS_REFUSED, expect_same, tap_at, tell};
use pay_rules::{Addition, AdditionFault, Kind};
use pay_taps::*;
use std::process::Abort;

/// A boarding.
fn boarding<R: Abort>(rt: &R, seq: u32, second: u32) -> Tap {
    tap_at(rt, seq, second, 50, Kind::Bus)
}

/// Adds a tap. Where an allocation fails, the set is as before and takes the tap at the next call.
fn add_at_last<R: Abort + AllocGlobal>(rt: &R, taps: &mut TapSet, tap: &Tap) {
    let before = taps.len();
    if taps.add(*tap) == Err(AdditionFault::Memory) {
        tell(rt, WAS_REFUSED);
        expect_same(rt, (taps.len(), taps.get(1, tap.seq)), (before, None));
        expect_same(rt, taps.add(*tap), Ok(Addition::Added));
    }
}

// They outgrow the set's own places, and a block.
#[test]
fn takes_more_taps_than_the_set_has_places(rt: HostRuntime) {
    let mut taps = TapSet::new(rt.alloc());
    tell(&rt, MAY_BE_REFUSED);
    for seq in 0..300 {
        add_at_last(&rt, &mut taps, &boarding(&rt, 299 - seq, 25_200));
    }
    expect_same(&rt, taps.len(), 300);
    expect_same(&rt, taps.run_from(0).first().map(|tap| tap.seq), Some(0));
    if let Ok(list) = taps.list(rt.alloc()) {
        expect_same(
            &rt,
            (list.len(), list.last().map(|tap| tap.seq)),
            (300, Some(299)),
        );
    }
}
