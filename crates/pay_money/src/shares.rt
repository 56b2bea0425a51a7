ghost use Rattle.std.specs.Prelude.{◌≡◌, ◌-◌, ◌≤◌, ◌<◌, All, sum};
ghost use Rattle.pay_money.specs.declared.limits.TheConstants.{MOST_MONEY};
ghost use Rattle.pay_money.specs.Shares.{proportion, part, shares};

use crate::limits::OPERATORS;

/// What of a total falls to some of a whole, in proportion, rounded down to a penny; nothing does where
/// the whole is nothing.
#[tactic(auto, using(crate::proofs::Proportions::product_fits, crate::proofs::Proportions::proportion_at_most))]
fn proportion(total: u64, some: u64, whole: u64) -> u64
    requires { some ≤ whole }
    ensures value { result ≡ proportion total some whole }
    ensures in_range { result ≤ total }
{
    if whole == 0 {
        return 0;
    }
    (u128::from(total) * u128::from(some) / u128::from(whole)) as u64
}

/// What of a total falls to some of a whole beyond what falls to less of it, each rounded down to a penny.
fn growth(total: u64, before: u64, through: u64, whole: u64) -> u64
    requires in_order { before ≤ through }
    requires in_whole { through ≤ whole }
    ensures value { result ≡ proportion total through whole - proportion total before whole }
    ensures in_range { result ≤ total }
{
    proportion(total, through, whole) - proportion(total, before, whole)
}

/// The part at an index, from 0 on, of a total in so many equal parts, in pence.
///
/// After the first so many parts, their proportion of the total has been given, rounded down to a penny;
/// the part is what this grows by. So the parts are the total together.
pub fn part(total: u64, count: usize, index: usize) -> u64
    requires { index < count }
    ensures value { result ≡ part total count index }
    ensures in_range { result ≤ total }
{
    let count = count as u64;
    let index = index as u64;
    growth(total, index, index + 1, count)
}

/// The shares of a total by the weights of the operators from 1 to 16, in pence.
///
/// After the first so many operators, the proportion of the total that falls to their weights together
/// has been given, rounded down to a penny; the share of an operator is what this grows by. So the shares
/// are the total together. All are 0 where all weights are.
pub fn apportion(total: u64, weights: &[u64; OPERATORS]) -> [u64; OPERATORS]
    requires covered { total ≤ sum weights.now }
    requires fits { sum weights.now ≤ MOST_MONEY }
    ensures value { result ≡ shares total weights.now }
    ensures together { sum result ≡ total }
    ensures in_range { All (λ share. share ≤ total) result }
{
    let whole: u64 = weights.iter().sum();
    let mut shares = [0; OPERATORS];
    let mut before = 0;
    for place in 0..OPERATORS {
        let through = before + weights[place];
        shares[place] = growth(total, before, through, whole);
        before = through;
    }
    shares
}
