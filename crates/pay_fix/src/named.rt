ghost use Rattle.std.specs.Prelude.{◌≡◌, IfSome};
ghost use Rattle.pay_day.specs.Words.{IsDay};
ghost use Rattle.pay_rules.specs.NamedDay.{own_day, day_named};

use crate::fix_set::FixSet;
use pay_rules::What;
use pay_taps::TapSet;

/// The service day that a correction names where it is no Drop.
fn own_day(taps: &TapSet, what: &What) -> Option<u32>
    ensures value { result ≡ own_day taps.now what.now }
    ensures in_range { IfSome result (λ day. IsDay day) }
{
    match what {
        What::Void(reader, seq) => Some(taps.get(*reader, *seq)?.stamp.day()),
        What::Fill(stamp, _, _) => Some(stamp.day()),
        What::Credit(credit) => Some(credit.day()),
        What::Drop(..) => None,
    }
}

/// The service day that a correction names: of a Void that of the tap that it takes out, of a Fill that of the
/// tap that it adds, of a Credit its own, and of a Drop that of the Void, Fill or Credit that it withdraws.
/// `None` where nothing of that name is accepted, or a Drop names a Drop.
pub fn day_named(taps: &TapSet, fixes: &FixSet, what: &What) -> Option<u32>
    ensures value { result ≡ day_named taps.now fixes.now what.now }
    ensures in_range { IfSome result (λ day. IsDay day) }
{
    match what {
        What::Drop(staff, seq) => own_day(taps, &fixes.get(*staff, *seq)?.what),
        _ => own_day(taps, what),
    }
}
