//! What is written as rows is read back as it was. Each law is the contract of a function that does nothing: a caller whose proof needs a
//! law calls its function.
ghost use Rattle.std.specs.Prelude.{◌≡◌, Some};
ghost use Rattle.pay_rules.specs.declared.tap.Tap.{Tap};
ghost use Rattle.pay_rules.specs.declared.fix.Fix.{Fix};
ghost use Rattle.pay_set_rows.specs.SetRows.{tap_row, tap_from_row, fix_row, fix_from_row};
ghost use Rattle.pay_set_rows.specs.InRange.{IsTapInRange, IsFixInRange};

/// A tap in its ranges is read back from its row.
pub fn taps_back()
    ensures { (tap : Tap) → IsTapInRange tap → tap_from_row tap.account (tap_row tap) ≡ Some tap }
{}

/// So is a correction.
pub fn fixes_back()
    ensures { (fix : Fix) → IsFixInRange fix → fix_from_row fix.account (fix_row fix) ≡ Some fix }
{}

/// Rows tell all of a tap, and of a correction, but for its account.
pub fn same_row()
    ensures taps { (tap other : Tap) → tap.account ≡ other.account → tap_row tap ≡ tap_row other → tap ≡ other }
    ensures fixes { (fix other : Fix) → fix.account ≡ other.account → fix_row fix ≡ fix_row other → fix ≡ other }
{}
