ghost use Rattle.std.specs.Prelude.{◌≡◌, ◌≤◌, ◌+◌, ◌*◌, length, sum_by, Some};
ghost use Rattle.std.specs.List.{zip};
ghost use Rattle.pay_day.specs.declared.limits.TheConstants.{DAYS_PER_WEEK};
ghost use Rattle.pay_money.specs.declared.limits.TheConstants.{MOST_MONEY};
ghost use Rattle.pay_tables.specs.declared.limits.TheConstants.{MOST_FARE};
ghost use Rattle.pay_rules.specs.Lowest.{lower};
ghost use Rattle.pay_week.specs.WeekSumPrices.{capped_days_of, days_outside_of};
ghost use Rattle.pay_why.specs.Caps.{sums_of_week, winning, band_at, cap_reason};

use crate::cap::{CapReason, CappedBand};
use crate::caps::rest_of;
use pay_caps::{Cells, Offer, capped_price, capped_price_outside, lower};
use pay_money::Pence;
use pay_tables::{Band, Cover, Editions};

/// The sum of the prices of days without their maximum fares, each by its own edition.
fn capped_days(editions: &Editions, days: &[u32], sums: &[Cells]) -> Pence
    requires beside { length days.now ≡ length sums.now }
    requires few { length sums.now ≤ DAYS_PER_WEEK }
    ensures value { result ≡ capped_days_of editions.now (zip days.now sums.now) }
    ensures in_range { result ≤ DAYS_PER_WEEK * MOST_MONEY }
{
    let mut sum = Pence::ZERO;
    for place in 0..sums.len() {
        let tables = editions.on(days[place]);
        sum = sum + capped_price(tables, &sums[place]).0;
    }
    sum
}

/// The same of what a band leaves outside of the days.
fn capped_days_outside(editions: &Editions, days: &[u32], sums: &[Cells], cover: Cover) -> Pence
    requires beside { length days.now ≡ length sums.now }
    requires few { length sums.now ≤ DAYS_PER_WEEK }
    ensures value { result ≡ capped_days_of editions.now (days_outside_of cover (zip days.now sums.now)) }
    ensures in_range { result ≤ DAYS_PER_WEEK * MOST_MONEY }
{
    let mut sum = Pence::ZERO;
    for place in 0..sums.len() {
        let tables = editions.on(days[place]);
        sum = sum + capped_price_outside(tables, &sums[place], cover).0;
    }
    sum
}

/// The sum of the maximum fares of days.
fn maximum_of(sums: &[Cells]) -> Pence
    requires { length sums.now ≤ DAYS_PER_WEEK }
    ensures value { result ≡ sum_by (λ cells. cells.maximum) sums.now }
    ensures in_range { result ≤ DAYS_PER_WEEK * MOST_MONEY }
{
    let mut sum = Pence::ZERO;
    for cells in sums {
        sum = sum + cells.maximum();
    }
    sum
}

/// The lower of an offer and what the band at a place in its edition offers for the week.
fn lower_of(
    best: Offer,
    editions: &Editions,
    days: &[u32],
    sums: &[Cells],
    band: &Band,
    place: u8,
) -> Offer
    requires beside { length days.now ≡ length sums.now }
    requires few { length sums.now ≤ DAYS_PER_WEEK }
    requires in_range { band.now.week ≤ MOST_FARE }
    ensures value { result ≡ lower best (band.now.week + capped_days_of editions.now (days_outside_of band.now.cover (zip days.now sums.now)), Some place) }
    ensures no_more { result.0 ≤ best.0 }
{
    let outside = capped_days_outside(editions, days, sums, band.cover);
    lower(best, (band.week + outside, Some(place)))
}

/// The least offer for the week of a Monday, and the band that makes it.
fn least_offer(editions: &Editions, monday: u32, days: &[u32], sums: &[Cells]) -> Offer
    requires beside { length days.now ≡ length sums.now }
    requires few { length sums.now ≤ DAYS_PER_WEEK }
    ensures value { result ≡ winning (sums_of_week editions.now monday (zip days.now sums.now)) }
    ensures in_range { result.0 ≤ DAYS_PER_WEEK * MOST_MONEY }
{
    let bands = editions.on(monday).bands();
    let mut best = (capped_days(editions, days, sums), None);
    for place in 0..bands.len() {
        best = lower_of(best, editions, days, sums, &bands[place], place as u8);
    }
    best
}

/// The band at a place in the Monday's edition as the one that gives the week's price.
fn week_band(
    editions: &Editions,
    monday: u32,
    days: &[u32],
    sums: &[Cells],
    place: Option<u8>,
) -> Option<CappedBand>
    requires beside { length days.now ≡ length sums.now }
    requires few { length sums.now ≤ DAYS_PER_WEEK }
    ensures { result ≡ band_at (sums_of_week editions.now monday (zip days.now sums.now)) place }
{
    let place = place?;
    let band = editions.on(monday).bands().get(usize::from(place))?;
    let outside = capped_days_outside(editions, days, sums, band.cover);
    Some(CappedBand {
        place,
        cover: band.cover,
        cap: band.week,
        inside: rest_of(capped_days(editions, days, sums), outside),
        outside,
    })
}

/// Why the week of a Monday costs what it costs, by some of its days, each with the sums of its fares: which
/// offer is the least, and what that leaves outside.
///
/// The bands are those of the Monday's edition. What a band leaves outside of a day is priced by that day's
/// own edition and caps, so what is inside is the rest of the days' prices.
#[tactic(auto, using(crate::proofs::WeekSplit::maximum_beside))]
pub fn week_reason(editions: &Editions, monday: u32, days: &[u32], sums: &[Cells]) -> CapReason
    requires beside { length days.now ≡ length sums.now }
    requires few { length sums.now ≤ DAYS_PER_WEEK }
    ensures { result ≡ cap_reason (sums_of_week editions.now monday (zip days.now sums.now)) }
{
    let (capped, place) = least_offer(editions, monday, days, sums);
    let maximum = maximum_of(sums);
    CapReason {
        uncapped: capped_days(editions, days, sums),
        band: week_band(editions, monday, days, sums, place),
        maximum,
        price: capped + maximum,
    }
}
