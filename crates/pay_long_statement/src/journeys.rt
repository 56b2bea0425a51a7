//! The rows of journeys.
ghost use Rattle.std.specs.Prelude.{◌≡◌};
ghost use Rattle.pay_day.specs.Words.{IsDay};
ghost use Rattle.pay_long_statement.specs.Rows.{boarding_row, journey_row, listed_row, lone_row, two_taps};

use crate::row::{Amount, Row, RowKind};
use pay_money::Pence;
use pay_rules::{Journey, Kind, Touch};
use pay_why::{ListedJourney, Mode};

/// The row of a journey with two taps.
fn two_taps(kind: RowKind, entry: &Touch, exit: &Touch, fare: Pence) -> Row
    ensures row { result ≡ two_taps kind entry.now exit.now fare }
    ensures is_day { IsDay result.day }
{
    Row {
        day: entry.stamp.day(),
        kind,
        from: Some(entry.place),
        to: Some(exit.place),
        start: Some(entry.stamp),
        end: Some(exit.stamp),
        amount: Amount::Due(fare),
    }
}

/// The row of a rail tap that stands alone. One on the way out tells where a journey ended.
fn lone_row(tap: &Touch, fare: Pence) -> Row
    ensures row { result ≡ lone_row tap.now fare }
    ensures is_day { IsDay result.day }
{
    let (from, to) = match tap.kind {
        Kind::Out => (None, Some(tap.place)),
        _ => (Some(tap.place), None),
    };
    Row {
        day: tap.stamp.day(),
        kind: RowKind::Lone,
        from,
        to,
        start: Some(tap.stamp),
        end: None,
        amount: Amount::Due(fare),
    }
}

/// The row of a boarding.
fn boarding_row(tap: &Touch, fare: Pence) -> Row
    ensures row { result ≡ boarding_row tap.now fare }
    ensures is_day { IsDay result.day }
{
    Row {
        day: tap.stamp.day(),
        kind: RowKind::Bus,
        from: Some(tap.place),
        to: None,
        start: Some(tap.stamp),
        end: None,
        amount: Amount::Due(fare),
    }
}

/// The row of a journey that costs so much by itself.
fn journey_row(journey: &Journey, fare: Pence) -> Row
    ensures row { result ≡ journey_row journey.now fare }
    ensures is_day { IsDay result.day }
{
    match journey {
        Journey::Run(run) => two_taps(RowKind::Rail, &run.first().entry, &run.last().exit, fare),
        Journey::Same(leg) => two_taps(RowKind::Same, &leg.entry, &leg.exit, fare),
        Journey::Lone(tap) => lone_row(tap, fare),
        Journey::Bus { tap, .. } => boarding_row(tap, fare),
    }
}

/// The row of a journey that a day lists, where these are all journeys by rail of the account.
pub fn listed_row(journeys: &[Journey], listed: &ListedJourney) -> Row
    ensures row { result ≡ listed_row journeys.now listed.now }
    ensures is_day { IsDay result.day }
{
    match listed.mode {
        Mode::Bus => boarding_row(&listed.tap, listed.fare),
        Mode::Rail => match journeys.get(listed.place) {
            Some(journey) => journey_row(journey, listed.fare),
            None => lone_row(&listed.tap, listed.fare),
        },
    }
}
