ghost use Rattle.std.specs.Prelude.{◌≡◌, ◌≤◌, ◌*◌};
ghost use Rattle.pay_rules.specs.declared.limits.TheConstants.{MOST_CREDIT, MOST_FIXES};
ghost use Rattle.pay_rules.specs.StandingCredits.{given, given_by, credits};

use crate::fix_set::FixSet;
use crate::standing::stands;
use pay_money::Pence;
use pay_rules::{Fix, What};

/// What a correction gives back for days from one through another.
fn given(fix: &Fix, from: u32, through: u32) -> Pence
    ensures value { result ≡ given from through fix.now.what }
    ensures in_range { result ≤ MOST_CREDIT }
{
    match fix.what {
        What::Credit(credit) if from <= credit.day() && credit.day() <= through => credit.pence(),
        _ => Pence::ZERO,
    }
}

/// What it gives back if it stands among the accepted corrections.
fn given_by(accepted: &[Fix], fix: &Fix, from: u32, through: u32) -> Pence
    ensures value { result ≡ given_by accepted.now from through fix.now }
    ensures in_range { result ≤ MOST_CREDIT }
{
    if stands(accepted, fix) {
        given(fix, from, through)
    } else {
        Pence::ZERO
    }
}

/// The sum of the standing Credits of days from one through another.
pub fn credits(fixes: &FixSet, from: u32, through: u32) -> Pence
    ensures value { result ≡ credits fixes.now from through }
    ensures in_range { result ≤ MOST_FIXES * MOST_CREDIT }
{
    let accepted = fixes.as_slice();
    let mut sum = Pence::ZERO;
    for fix in accepted {
        sum = sum + given_by(accepted, fix, from, through);
    }
    sum
}
