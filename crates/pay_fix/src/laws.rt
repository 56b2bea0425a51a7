//! What is true of corrections themselves. Each law is the contract of a function that does nothing: a caller
//! whose proof needs a law calls its function.
ghost use Rattle.pay_fix.specs.Laws.{VoidTakesOut, DropRestores, CreditChangesNoTap, EffectiveHaveOwnNumbers, EffectiveAreInOrder, EffectiveAreFew, TapChanges, FixChanges};

use pay_rules::{Fix, Tap};

/// A Void of a tap leaves the effective taps that there are without the two, unless a Drop has named it before.
pub fn void_takes_out()
    ensures { VoidTakesOut }
{
    pay_rule_laws::sets::one_more::<Tap>();
    pay_rule_laws::sets::one_more::<Fix>();
    pay_rule_laws::sets::numbers::<Tap>();
}

/// A Drop of a Void leaves the effective taps that there were before the Void.
pub fn drop_restores()
    ensures { DropRestores }
{
    pay_rule_laws::sets::one_more::<Fix>();
    pay_rule_laws::sets::numbers::<Fix>();
}

/// A Credit changes no effective tap, and so no price of a day.
pub fn credit_changes_no_tap()
    ensures { CreditChangesNoTap }
{
    pay_rule_laws::sets::one_more::<Fix>();
}

/// Effective taps have numbers of their own, and are in order. There are at most as many as `MOST_TOUCHES`.
pub fn own_numbers()
    ensures own_numbers { EffectiveHaveOwnNumbers }
    ensures in_order { EffectiveAreInOrder }
    ensures few { EffectiveAreFew }
{
    pay_taps::laws::order();
}

/// A further tap changes the effective taps as `change_by_tap` says.
pub fn tap_changes()
    ensures { TapChanges }
{
    pay_rule_laws::sets::one_more::<Tap>();
    pay_taps::laws::order();
    pay_taps::laws::order_forgets_arrival();
}

/// A further correction changes the effective taps as `change_by_fix` says.
pub fn fix_changes()
    ensures { FixChanges }
{
    pay_rule_laws::sets::one_more::<Fix>();
    pay_taps::laws::order();
    pay_taps::laws::order_forgets_arrival();
}
