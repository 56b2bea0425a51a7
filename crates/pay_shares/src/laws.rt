//! What is true of operators' weights themselves. Each law is the contract of a function that changes
//! nothing: a caller whose proof needs a law calls its function.
ghost use Rattle.std.specs.Prelude.{◌≡◌, ◌≢◌, ℕ, ◌≤◌, List, All, sum};
ghost use Rattle.pay_money.specs.declared.limits.TheConstants.{OPERATORS};
ghost use Rattle.pay_rules.specs.declared.journey.Journey.{Journey};
ghost use Rattle.pay_rules.specs.Portions.{Portion, operator_at};
ghost use Rattle.pay_rules.specs.OperatorWeights.{weight, weights, sum_of_fares};

use pay_tables::Tables;

/// The operators of a fare file's places are numbered from 1 to 16.
pub fn operators_within(tables: &Tables)
    ensures { (place : ℕ) → (1 ≤ operator_at tables.now place) × (operator_at tables.now place ≤ OPERATORS) }
{
    pay_tables::laws::stations_within(tables);
}

/// The weights of the operators are the fares together.
pub fn nothing_is_lost(tables: &Tables)
    ensures { (journeys : List (Journey × ℕ)) → sum (weights tables.now journeys) ≡ sum_of_fares journeys }
{
    operators_within(tables);
    pay_money::laws::nothing_is_lost();
}

/// Where none of the portions falls to an operator, it has no weight.
pub fn nothing_for_nothing()
    ensures { (portions : List Portion) (operator : ℕ) → All (λ portion. portion.operator ≢ operator) portions → weight portions operator ≡ 0 }
{}
