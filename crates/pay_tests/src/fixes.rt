use crate::given::{MAY_BE_REFUSED, WAS_REFUSED, expect_same, tell};
use pay_fix::*;
use pay_rules::{Addition, AdditionFault};
use std::process::Abort;

/// A correction of account 7 by staff 3.
fn fix(seq: u32, what: What) -> Fix {
    Fix {
        account: 7,
        staff: 3,
        seq,
        what,
    }
}

/// Adds a correction. Where an allocation fails, the set is as before and takes it at the next call.
fn add<R: Abort + AllocGlobal>(rt: &R, fixes: &mut FixSet, fix: &Fix) {
    let (seq, before) = (fix.seq, fixes.len());
    if fixes.add(*fix) == Err(AdditionFault::Memory) {
        tell(rt, WAS_REFUSED);
        expect_same(rt, (fixes.len(), fixes.get(3, seq)), (before, None));
        expect_same(rt, fixes.add(*fix), Ok(Addition::Added));
    }
}

#[test]
fn keeps_corrections_by_number(rt: HostRuntime) {
    let mut fixes = FixSet::new(rt.alloc());
    tell(&rt, MAY_BE_REFUSED);
    add(&rt, &mut fixes, &fix(1, What::Void(5, 6)));
    expect_same(
        &rt,
        fixes.judge(&fix(1, What::Void(5, 6))),
        Ok(Addition::Repeat),
    );
    expect_same(
        &rt,
        fixes.add(fix(1, What::Drop(5, 6))),
        Err(AdditionFault::Conflict),
    );
    expect_same(&rt, (fixes.len(), fixes.is_empty()), (1, false));
    // They outgrow the set's own places.
    for seq in 2..100 {
        add(&rt, &mut fixes, &fix(seq, What::Void(5, seq)));
    }
    expect_same(&rt, fixes.len(), 99);
    if let Ok(list) = fixes.list(rt.alloc()) {
        expect_same(&rt, list.as_slice(), fixes.as_slice());
    }
}
