//! Laws of what a tap and a correction come to.
ghost use Rattle.std.specs.Prelude.{◌≡◌, ◌≢◌, ◌↔◌, false};
ghost use Rattle.pay_tables.specs.Words.{FareEditions};
ghost use Rattle.pay_rules.specs.Accepted.{Accepted};
ghost use Rattle.pay_rules.specs.TapPlaces.{is_known, is_known_fix};
ghost use Rattle.pay_rules.specs.TapResults.{tap_result};
ghost use Rattle.pay_rules.specs.FixResults.{fix_result};
ghost use Rattle.pay_rule_laws.specs.AccountLaws.{TapConflicts, TapFindsNoRoom, FixConflicts, FixFindsNoRoom, TapIsPricedAgain, FixIsPricedAgain, OrderIsForgotten};

use crate::sets;
use pay_rules::{Fix, FixFault, Tap, TapFault};

/// When each refusal of a tap comes. Of several that there are, the first here is given.
pub fn refusals()
    // The fare file has no place there of the tap's sort.
    ensures unknown_place { (editions : FareEditions) (accepted : Accepted) (tap : Tap) → (tap_result editions accepted tap ≡ Err TapFault.UnknownPlace)
        ↔ (is_known editions tap.place tap.kind ≡ false) }

    // Another tap of its number is there.
    ensures conflict { TapConflicts }

    // None of its number is there, and there is no room.
    ensures full { TapFindsNoRoom }
    ensures never_memory { (editions : FareEditions) (accepted : Accepted) (tap : Tap) → tap_result editions accepted tap ≢ Err TapFault.Memory }
{
    sets::judgements::<Tap>();
}

/// When each refusal of a correction comes. Of several that there are, the first here is given.
pub fn refusals_of_fixes()
    // It is a Fill, and the fare file has no place there of its sort.
    ensures unknown_place { (editions : FareEditions) (accepted : Accepted) (fix : Fix) → (fix_result editions accepted fix ≡ Err FixFault.UnknownPlace)
        ↔ (is_known_fix editions fix.what ≡ false) }

    // Another correction of its number is there.
    ensures conflict { FixConflicts }

    // None of its number is there, and there is no room.
    ensures full { FixFindsNoRoom }
    ensures never_memory { (editions : FareEditions) (accepted : Accepted) (fix : Fix) → fix_result editions accepted fix ≢ Err FixFault.Memory }
{
    sets::judgements::<Fix>();
}

/// What was accepted may be sent again: it is given the same prices, and changes nothing.
pub fn repeats()
    ensures same_prices { TapIsPricedAgain }
    ensures same_fix_prices { FixIsPricedAgain }
{
    sets::judgements::<Tap>();
    sets::judgements::<Fix>();
}

/// The charge is the same whatever order taps and corrections arrived in, and however often: where those of one
/// list are accepted one after another, then so are those of another list that has the same ones, and the
/// account has accepted the same in the end, by which all its prices are.
pub fn order_forgets_arrival()
    ensures { OrderIsForgotten }
{
    sets::order_forgets_arrival::<Tap>();
    sets::order_forgets_arrival::<Fix>();
}
