ghost use Rattle.std.specs.Prelude.{◌≡◌, ◌≤◌, None};
ghost use Rattle.pay_tables.specs.declared.limits.TheConstants.{MOST_FARE};
ghost use Rattle.pay_hopper.specs.Words.{last_paid_over};
ghost use Rattle.pay_why.specs.Boardings.{boarding_reason, boarding_fare, reason_after};

use crate::boarding::BoardingReason;
use pay_day::Moment;
use pay_hopper::pays;
use pay_money::Pence;
use pay_rules::Touch;
use pay_tables::Tables;

/// The moment of the last of some boardings that paid, where these are an account's first ones, in their order.
fn last_paid(tables: &Tables, boardings: &[Touch]) -> Option<Moment>
    ensures { result ≡ last_paid_over tables.now.rules.hopper None boardings.now }
{
    let mut last: Option<Moment> = None;
    for tap in boardings {
        if pays(tables, &last, tap) {
            last = Some(tap.stamp);
        }
    }
    last
}

/// Why a boarding pays or not, by the last one before it that paid, if any did.
fn reason_after(tables: &Tables, last_paid: Option<Moment>, tap: &Touch) -> BoardingReason
    ensures { result ≡ reason_after tables.now.rules.hopper last_paid tap.now }
{
    match last_paid {
        None => BoardingReason::First,
        Some(paid) if pays(tables, &Some(paid), tap) => BoardingReason::PaysAfter(paid),
        Some(paid) => BoardingReason::FreeAfter(paid),
    }
}

/// Why the boarding at a place, from 0, costs what it costs, or none if there is no such place.
/// `boardings` are all boardings of an account, in their order, and rail taps do not matter.
///
/// By the Hopper rule it is free if the last boarding before it that paid was at most `hopper` seconds
/// earlier. One between the two, which was free, does not count. The Hopper time is that of the whole
/// fare file, so `tables` may be those of any day.
pub fn boarding_reason(tables: &Tables, boardings: &[Touch], place: usize) -> Option<BoardingReason>
    ensures { result ≡ boarding_reason tables.now.rules.hopper boardings.now place }
{
    pay_hopper::laws::by_the_last();
    pay_hopper::laws::last_paid_by_marks();
    let tap = boardings.get(place)?;
    let last = last_paid(tables, &boardings[..place]);
    Some(reason_after(tables, last, tap))
}

/// What a boarding costs, in pence, by its reason and the tables of its service day: the bus fare if it
/// pays, and else nothing.
pub fn boarding_fare(tables: &Tables, reason: &BoardingReason) -> Pence
    ensures value { result ≡ boarding_fare tables.now reason.now }
    ensures in_range { result ≤ MOST_FARE }
{
    match reason {
        BoardingReason::First | BoardingReason::PaysAfter(_) => tables.rules().bus,
        BoardingReason::FreeAfter(_) => Pence::ZERO,
    }
}
