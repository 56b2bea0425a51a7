use crate::numbered::Numbered;
use crate::tap::{Kind, Tap};
use pay_day::Moment;
use pay_day::limits::{FIRST_DAY, FIRST_INSTANT};
use std::alloc::Global;
use std::default::MadeWith;

/// A tap's number is its reader and seq.
impl Numbered for Tap {
    ghost use Rattle.pay_rules.specs.Taps.{number, same_tap};
    ghost use Rattle.pay_rules.specs.SameTap.{tap_from_same, tap_itself};

    ghost number = { number };

    ghost same = { same_tap };

    fn number(&self) -> (u16, u32) {
        (self.reader, self.seq)
    }

    fn is_same(&self, other: &Tap) -> bool {
        self == other
    }

    ghost same_is_one = { tap_from_same };

    ghost one_is_same = { tap_itself };
}

// What lies in the places of a set while they hold no tap. No tap of a set is this one.
impl MadeWith<Global> for Tap {
    fn made_with(_: Global) -> Tap {
        let Some(stamp) = Moment::from_parts(FIRST_INSTANT, FIRST_DAY, 0) else {
            unreachable!()
        };
        Tap {
            account: 0,
            reader: 0,
            seq: 0,
            place: 0,
            kind: Kind::Bus,
            stamp,
        }
    }
}
