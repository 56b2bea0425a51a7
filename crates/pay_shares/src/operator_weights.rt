ghost use Rattle.std.specs.Prelude.{◌≡◌, ◌≤◌, ◌<◌, ◌+◌, sum};
ghost use Rattle.pay_money.specs.declared.limits.TheConstants.{MOST_MONEY, OPERATORS};
ghost use Rattle.pay_rules.specs.LinkedLegs.{all_legs};
ghost use Rattle.pay_rules.specs.Portions.{operator_at, portion, leg_portions, portions};
ghost use Rattle.pay_rules.specs.OperatorWeights.{sum_of_fares, weights};
ghost use Rattle.pay_shares.specs.Adding.{with_portion, with_portions};

use crate::laws;
use pay_money::limits::OPERATORS;
use pay_money::{Pence, part};
use pay_rules::{Journey, Run};
use pay_tables::{Place, Tables};

/// Whose the place at a number is. A number without a place, which no accepted tap has, counts as one of
/// operator 1.
fn operator_at(tables: &Tables, place: u16) -> u8
    ensures value { result ≡ operator_at tables.now place }
    ensures in_range { (1 ≤ result) × (result ≤ OPERATORS) }
{
    match tables.station(place) {
        Place::Station { operator, .. } => operator,
        Place::Route { operator } => operator,
    }
}

/// Adds pence to the weight of a place's operator.
fn add_portion(weights: &mut [u64; OPERATORS], tables: &Tables, place: u16, pence: u64)
    requires { sum weights.old + pence ≤ MOST_MONEY }
    ensures value { weights.new ≡ with_portion weights.old (portion tables.now place pence) }
    ensures together { sum weights.new ≡ sum weights.old + pence }
{
    let operator = operator_at(tables, place);
    weights[usize::from(operator) - 1] += pence;
}

/// Adds a run's fare: a part of it for each leg, to the weight of the operator of the leg's first station.
fn add_run(weights: &mut [u64; OPERATORS], tables: &Tables, run: &Run, fare: u64)
    requires { sum weights.old + fare ≤ MOST_MONEY }
    ensures value { weights.new ≡ with_portions weights.old (leg_portions tables.now (all_legs run.now) fare) }
    ensures together { sum weights.new ≡ sum weights.old + fare }
{
    pay_money::laws::nothing_is_lost();
    let first = run.first();
    let others = run.others();
    let legs = others.len() + 1;
    add_portion(weights, tables, first.entry.place, part(fare, legs, 0));
    for (index, leg) in others.iter().enumerate() {
        let pence = part(fare, legs, index + 1);
        add_portion(weights, tables, leg.entry.place, pence);
    }
}

/// Adds a journey's fare to the weights of the operators that it falls to.
fn add_fare(weights: &mut [u64; OPERATORS], tables: &Tables, journey: &Journey, fare: u64)
    requires { sum weights.old + fare ≤ MOST_MONEY }
    ensures value { weights.new ≡ with_portions weights.old (portions tables.now journey.now fare) }
    ensures together { sum weights.new ≡ sum weights.old + fare }
{
    match journey {
        Journey::Run(run) => add_run(weights, tables, run, fare),
        Journey::Same(leg) => add_portion(weights, tables, leg.entry.place, fare),
        Journey::Lone(tap) => add_portion(weights, tables, tap.place, fare),
        Journey::Bus { tap, .. } => add_portion(weights, tables, tap.place, fare),
    }
}

/// The weights of the operators from 1 to 16, that of operator 1 first: what falls to each of the fares of
/// journeys, in pence.
///
/// The fare of linked legs is divided into equal parts, one for each leg, which falls to the operator of the
/// station where the leg began. The fare of a leg that ends where it began, of a lone tap and of a boarding
/// falls to the operator of its station or route.
pub fn weights(tables: &Tables, journeys: &[(Journey, Pence)]) -> [u64; OPERATORS]
    requires { sum_of_fares journeys.now ≤ MOST_MONEY }
    ensures value { result ≡ weights tables.now journeys.now }
    ensures together { sum result ≡ sum_of_fares journeys.now }
{
    laws::operators_within(tables);
    let mut weights = [0; OPERATORS];
    for (journey, fare) in journeys {
        add_fare(&mut weights, tables, journey, fare.pence());
    }
    weights
}
