ghost use Rattle.std.specs.Prelude.{◌≡◌, ◌≤◌, All, sum};
ghost use Rattle.pay_money.specs.declared.limits.TheConstants.{MOST_MONEY};
ghost use Rattle.pay_money.specs.Words.{shares};

use pay_money::limits::OPERATORS;
use pay_money::{Pence, apportion};

/// The shares of what is due, in pence, that fall to the operators from 1 to 16 by their weights: that of
/// operator 1 stands first. They are what is due together, and where it is nothing, all are 0.
pub fn shares(due: Pence, weights: &[u64; OPERATORS]) -> [u64; OPERATORS]
    requires covered { due ≤ sum weights.now }
    requires fits { sum weights.now ≤ MOST_MONEY }
    ensures value { result ≡ shares due weights.now }
    ensures together { sum result ≡ due }
    ensures in_range { All (λ share. share ≤ due) result }
{
    apportion(due.pence(), weights)
}
