use crate::fix::{Fix, What};
use crate::numbered::Numbered;
use std::alloc::Global;
use std::default::MadeWith;

/// A correction's number is its staff and seq.
impl Numbered for Fix {
    ghost use Rattle.pay_rules.specs.Fixes.{number, same_fix};
    ghost use Rattle.pay_rules.specs.SameFix.{same_is_one, one_is_same};

    ghost number = { number };

    ghost same = { same_fix };

    fn number(&self) -> (u16, u32) {
        (self.staff, self.seq)
    }

    fn is_same(&self, other: &Fix) -> bool {
        self == other
    }

    ghost same_is_one = { same_is_one };

    ghost one_is_same = { one_is_same };
}

// What would lie in a set's own places while they hold none; such a set has no places of its own.
impl MadeWith<Global> for Fix {
    fn made_with(_: Global) -> Fix {
        Fix {
            account: 0,
            staff: 0,
            seq: 0,
            what: What::Void(0, 0),
        }
    }
}
