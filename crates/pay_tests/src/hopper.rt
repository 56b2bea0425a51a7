//! Which boardings pay, by the sample fare file. An account judges each as it comes, so no line of the program asks for all of them.

use crate::given::{expect_same, sample, touch_at};
use pay_hopper::*;
use pay_rules::Kind;

#[test]
fn boardings_pay_after_the_hour(rt: HostRuntime) {
    let editions = sample(&rt);
    let first = touch_at(&rt, 25_200, 50, Kind::Bus);
    let free = touch_at(&rt, 28_800, 50, Kind::Bus);
    let next = touch_at(&rt, 28_801, 50, Kind::Bus);
    let marks = paying(rt.alloc(), editions.own(), &[first, free, next]).expect(&rt, "memory");
    expect_same(&rt, marks.as_slice(), [true, false, true].as_slice());
}
