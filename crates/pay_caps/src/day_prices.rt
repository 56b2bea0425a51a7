ghost use Rattle.std.specs.Prelude.{◌≡◌, ◌≤◌, ◌+◌, Some, slice_get};
ghost use Rattle.pay_tables.specs.declared.limits.TheConstants.{MOST_FARE};
ghost use Rattle.pay_money.specs.declared.limits.TheConstants.{MOST_MONEY};
ghost use Rattle.pay_caps.specs.Cells.{capped_sum, outside, outside_of, outside_sum, total};
ghost use Rattle.pay_rules.specs.Lowest.{lower};
ghost use Rattle.pay_caps.specs.SumPrices.{capped_price_of, day_price_of};

use crate::cells::Cells;
use pay_money::Pence;
use pay_tables::{Band, Cover, Tables};

/// A price, and the band that gives it, by its place in the fare file, where one does.
pub type Offer = (Pence, Option<u8>);

/// The lower of two offers, and the first if they are alike.
pub fn lower(first: Offer, second: Offer) -> Offer
    ensures { result ≡ lower first second }
{
    if second.0 < first.0 { second } else { first }
}

/// The lower of an offer and what the band at a place offers: its cap, and what it leaves outside. A cap
/// that is no lower than the offer can't be.
fn lower_of(best: Offer, cells: &Cells, band: &Band, place: u8) -> Offer
    requires { band.now.day ≤ MOST_FARE }
    ensures value { result ≡ lower best (band.now.day + outside_sum band.now.cover cells.now, Some place) }
    ensures no_more { result.0 ≤ best.0 }
{
    if band.day >= best.0 {
        return best;
    }
    lower(
        best,
        (band.day + cells.outside_sum(band.cover), Some(place)),
    )
}

/// The price of a day's fares without its maximum fares, and the band that gives it, by its place in the
/// fare file.
///
/// It is the least of their sum and, for each band, of the band's cap and the fares that it leaves
/// outside. Of equal prices that without a band is taken, and then that of the band that stands first.
pub fn capped_price(tables: &Tables, cells: &Cells) -> Offer
    ensures value { result ≡ capped_price_of tables.now cells.now }
    ensures no_more { result.0 ≤ capped_sum cells.now }
    ensures in_range { result.0 + cells.now.maximum ≤ MOST_MONEY }
{
    let bands = tables.bands();
    let mut best = (cells.capped_sum(), None);
    for place in 0..bands.len() {
        best = lower_of(best, cells, &bands[place], place as u8);
    }
    best
}

/// The same for what another band leaves outside: the cap, and what both leave outside.
fn lower_of_outside(best: Offer, cells: &Cells, other: Cover, band: &Band, place: u8) -> Offer
    requires { band.now.day ≤ MOST_FARE }
    ensures value { result ≡ lower best (band.now.day + outside_sum band.now.cover (outside other cells.now), Some place) }
    ensures no_more { result.0 ≤ best.0 }
{
    if best.0 <= band.day {
        return best;
    }
    lower(
        best,
        (
            band.day + cells.outside_both_sum(other, band.cover),
            Some(place),
        ),
    )
}

/// `capped_price` of what a band leaves outside, which may be one of another edition. It is that of
/// `Cells::outside`, for which no cells have to be made.
pub fn capped_price_outside(tables: &Tables, cells: &Cells, other: Cover) -> Offer
    ensures value { result ≡ capped_price_of tables.now (outside other cells.now) }
    ensures in_range { result.0 ≤ MOST_MONEY }
{
    let bands = tables.bands();
    let mut best = (cells.outside_sum(other), None);
    for place in 0..bands.len() {
        best = lower_of_outside(best, cells, other, &bands[place], place as u8);
    }
    best
}

/// The price of a day's fares, and the band that gives it, by its place in the fare file: that of
/// `capped_price`, and the maximum fares, which are outside of every cap.
pub fn day_price(tables: &Tables, cells: &Cells) -> Offer
    ensures price { result.0 ≡ day_price_of tables.now cells.now }
    ensures band { result.1 ≡ (capped_price_of tables.now cells.now).1 }
    ensures no_more { result.0 ≤ total cells.now }
{
    let (price, band) = capped_price(tables, cells);
    (price + cells.maximum(), band)
}
