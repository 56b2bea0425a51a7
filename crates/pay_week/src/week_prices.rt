ghost use Rattle.std.specs.Prelude.{◌≡◌, ◌≤◌, ◌<◌, ◌+◌, ◌*◌, length, sum_by, Some};
ghost use Rattle.std.specs.List.{range_with_len, zip};
ghost use Rattle.pay_day.specs.Words.{IsDay};
ghost use Rattle.pay_day.specs.declared.limits.TheConstants.{DAYS_PER_WEEK};
ghost use Rattle.pay_tables.specs.declared.limits.TheConstants.{MOST_FARE};
ghost use Rattle.pay_money.specs.declared.limits.TheConstants.{MOST_MONEY};
ghost use Rattle.pay_caps.specs.Words.{capped_sum, total};
ghost use Rattle.pay_rules.specs.Lowest.{lower};
ghost use Rattle.pay_week.specs.WeekSumPrices.{capped_days_of, days_outside_of, maximum_of, week_price_of};
ghost use Rattle.pay_rules.specs.WeekPrices.{due};

use pay_caps::{Cells, Offer, capped_price, capped_price_outside, lower};
use pay_day::limits::DAYS_PER_WEEK;
use pay_money::Pence;
use pay_tables::{Band, Cover, Editions};

/// The sum of the prices of days without their maximum fares, each by its own edition.
fn capped_days(editions: &Editions, days: &[u32], sums: &[Cells]) -> Pence
    requires beside { length days.now ≡ length sums.now }
    requires few { length sums.now ≤ DAYS_PER_WEEK }
    ensures value { result ≡ capped_days_of editions.now (zip days.now sums.now) }
    ensures no_more { result ≤ sum_by capped_sum sums.now }
    ensures in_range { result ≤ DAYS_PER_WEEK * MOST_MONEY }
{
    let mut sum = Pence::ZERO;
    for place in 0..sums.len() {
        let tables = editions.on(days[place]);
        sum = sum + capped_price(tables, &sums[place]).0;
    }
    sum
}

/// The same of what a band leaves outside of the days.
fn capped_days_outside(editions: &Editions, days: &[u32], sums: &[Cells], cover: Cover) -> Pence
    requires beside { length days.now ≡ length sums.now }
    requires few { length sums.now ≤ DAYS_PER_WEEK }
    ensures value { result ≡ capped_days_of editions.now (days_outside_of cover (zip days.now sums.now)) }
    ensures in_range { result ≤ DAYS_PER_WEEK * MOST_MONEY }
{
    let mut sum = Pence::ZERO;
    for place in 0..sums.len() {
        let tables = editions.on(days[place]);
        sum = sum + capped_price_outside(tables, &sums[place], cover).0;
    }
    sum
}

/// The sum of the maximum fares of days.
fn maximum_of(sums: &[Cells]) -> Pence
    requires { length sums.now ≤ DAYS_PER_WEEK }
    ensures value { result ≡ sum_by (λ cells. cells.maximum) sums.now }
    ensures in_range { result ≤ DAYS_PER_WEEK * MOST_MONEY }
{
    let mut sum = Pence::ZERO;
    for cells in sums {
        sum = sum + cells.maximum();
    }
    sum
}

/// The lower of an offer and what the band at a place in its edition offers for the week: its cap, and
/// the prices of what it leaves outside of each day. A cap that is no lower than the offer can't be.
fn lower_of(
    best: Offer,
    editions: &Editions,
    days: &[u32],
    sums: &[Cells],
    band: &Band,
    place: u8,
) -> Offer
    requires beside { length days.now ≡ length sums.now }
    requires few { length sums.now ≤ DAYS_PER_WEEK }
    requires in_range { band.now.week ≤ MOST_FARE }
    ensures value { result ≡ lower best (band.now.week + capped_days_of editions.now (days_outside_of band.now.cover (zip days.now sums.now)), Some place) }
    ensures no_more { result.0 ≤ best.0 }
{
    if band.week >= best.0 {
        return best;
    }
    lower(
        best,
        (
            band.week + capped_days_outside(editions, days, sums, band.cover),
            Some(place),
        ),
    )
}

/// The price of the week of a Monday, by some of its days, each with the sums of its fares.
///
/// It is the least of the sum of the days' prices, each by its own edition, and, for each band of the Monday's
/// edition, of the band's cap for a week and the price of what it leaves outside of each day; the maximum fares
/// are outside of every cap.
pub fn price_of_days(editions: &Editions, monday: u32, days: &[u32], sums: &[Cells]) -> Pence
    requires beside { length days.now ≡ length sums.now }
    requires few { length sums.now ≤ DAYS_PER_WEEK }
    ensures value { result ≡ week_price_of editions.now monday (zip days.now sums.now) }
    ensures no_more { result ≤ sum_by total sums.now }
{
    let bands = editions.on(monday).bands();
    let mut best = (capped_days(editions, days, sums), None);
    for place in 0..bands.len() {
        best = lower_of(best, editions, days, sums, &bands[place], place as u8);
    }
    best.0 + maximum_of(sums)
}

/// The days of the week of a Monday.
fn days_from(monday: u32) -> [u32; DAYS_PER_WEEK as usize]
    requires { IsDay monday }
    ensures { result ≡ range_with_len monday DAYS_PER_WEEK }
{
    [
        monday,
        monday + 1,
        monday + 2,
        monday + 3,
        monday + 4,
        monday + 5,
        monday + 6,
    ]
}

/// The price of a week through one of its days, by the sums of each day's fares from its Monday through that
/// day.
pub fn week_price(editions: &Editions, monday: u32, sums: &[Cells]) -> Pence
    requires is_day { IsDay monday }
    requires some { (1 ≤ length sums.now) × (length sums.now ≤ DAYS_PER_WEEK) }
    ensures value { result ≡ week_price_of editions.now monday (zip (range_with_len monday (length sums.now)) sums.now) }
    ensures no_more { result ≤ sum_by total sums.now }
{
    let days = days_from(monday);
    price_of_days(editions, monday, &days[..sums.len()], sums)
}

/// What is due of a price where so much is credited: the price less the credits, and nothing where these
/// are more.
pub fn due(price: Pence, credits: Pence) -> Pence
    ensures { result ≡ due price credits }
{
    if credits >= price {
        return Pence::ZERO;
    }
    price - credits
}
