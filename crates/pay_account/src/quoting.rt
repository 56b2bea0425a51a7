ghost use Rattle.std.specs.Prelude.{◌≡◌, ◌≤◌, length, map, filter, sum, sum_by, IfOk};
ghost use Rattle.pay_day.specs.Words.{IsDay};
ghost use Rattle.pay_tables.specs.Words.{first_day};
ghost use Rattle.pay_rules.specs.declared.limits.TheConstants.{MOST_TOUCHES};
ghost use Rattle.pay_rules.specs.JourneyFares.{fare_by};
ghost use Rattle.pay_money.specs.declared.limits.TheConstants.{MOST_MONEY};
ghost use Rattle.pay_rules.specs.QuoteParts.{IsQuote};
ghost use Rattle.pay_rules.specs.Prices.{is_within, journeys_through, price_of_week};
ghost use Rattle.pay_rules.specs.Quotes.{with_fare, weights_through};

use crate::journeys::day_of;
use crate::week_cells::cells_of_days;
use pay_day::{day_of_week, monday};
use pay_money::Pence;
use pay_money::limits::OPERATORS;
use pay_rules::{Journey, Quote};
use pay_shares::weights;
use pay_tables::Editions;
use pay_week::{fare_by, week_price};
use std::alloc::{AllocError, Global};

/// Whether a journey belongs to one of the days from one through another.
fn is_within(journey: &Journey, from: u32, through: u32) -> bool
    ensures { result ≡ is_within from through journey.now }
{
    let day = day_of(journey);
    from <= day && day <= through
}

/// Leaves the journeys of the days from one through another.
pub fn keep_days(list: &mut Vec<Journey>, from: u32, through: u32)
    ensures { list.new.items ≡ filter (is_within from through) list.old.items }
{
    list.retain(|journey| is_within(journey, from, through));
}

/// A journey beside its fare.
fn with_fare(editions: &Editions, journey: Journey) -> (Journey, Pence)
    ensures { result ≡ with_fare editions.now journey }
{
    let fare = fare_by(editions, &journey);
    (journey, fare)
}

/// Each of the journeys of the days from one through another, beside its fare.
fn with_fares(
    alloc: Global,
    editions: &Editions,
    journeys: Vec<Journey>,
    from: u32,
    through: u32,
) -> Result<Vec<(Journey, Pence)>, AllocError>
    ensures { IfOk result (λ list. list.items ≡ map (with_fare editions.now) (filter (is_within from through) journeys.items)) }
{
    let mut list = Vec::with_capacity(alloc, journeys.len())?;
    for journey in journeys {
        if is_within(&journey, from, through) {
            list.push(with_fare(editions, journey))?;
        }
    }
    Ok(list)
}

/// The price of a day's week through that day, of all journeys.
pub fn price_through(editions: &Editions, journeys: &[Journey], through: u32) -> Pence
    requires few { length journeys.now ≤ MOST_TOUCHES }
    requires is_day { IsDay through }
    ensures value { result ≡ price_of_week editions.now journeys.now through }
    ensures no_more { result ≤ sum_by (fare_by editions.now) (journeys_through journeys.now through) }
{
    pay_week::day_laws::day_prices(editions);
    pay_week::laws::week_prices(editions);
    let week = cells_of_days(editions, journeys, through);
    week_price(
        editions,
        monday(through),
        &week[..day_of_week(through) as usize + 1],
    )
}

/// What each operator carried of all journeys in a day's week from Monday through that day.
pub fn weights_through(
    alloc: Global,
    editions: &Editions,
    journeys: Vec<Journey>,
    through: u32,
) -> Result<[u64; OPERATORS], AllocError>
    requires few { length journeys.items ≤ MOST_TOUCHES }
    requires is_day { IsDay through }
    ensures value { IfOk result (λ list. list ≡ weights_through editions.now journeys.items through) }
    ensures together { IfOk result (λ list. sum list ≡ sum_by (fare_by editions.now) (journeys_through journeys.items through)) }
    ensures in_range { IfOk result (λ list. sum list ≤ MOST_MONEY) }
{
    pay_week::fare_laws::fares_within(editions);
    let list = with_fares(alloc, editions, journeys, monday(through), through)?;
    Ok(weights(editions.own(), &list))
}

/// The first day of the edition by which a week is priced, which its Monday names.
pub fn edition_day(editions: &Editions, week: u32) -> u32
    ensures value { result ≡ first_day editions.now week }
    ensures in_range { IsDay result }
{
    pay_tables::laws::last_begun(editions);
    editions.first_day(week)
}

/// A quote of numbers that a quote may have.
pub fn quote_of(
    account: u32,
    week: u32,
    through: u32,
    version: u32,
    due: Pence,
    edition: u32,
    shares: [u64; OPERATORS],
) -> Quote
    requires { IsQuote (record { account = account; week = week; through = through; version = version; due = due; edition = edition; shares = shares }) }
    ensures { result ≡ record { account = account; week = week; through = through; version = version; due = due; edition = edition; shares = shares } }
{
    match Quote::rebuilt(account, week, through, version, due, edition, shares) {
        Some(quote) => quote,
        None => unreachable!(),
    }
}
