ghost use Rattle.std.specs.Prelude.{◌≡◌, ◌-◌};
ghost use Rattle.pay_why.specs.Caps.{sums_of_day, band_at, cap_reason};

use crate::cap::{CapReason, CappedBand};
use pay_caps::{Cells, capped_price};
use pay_money::Pence;
use pay_tables::Tables;

/// What is left of an amount where some of it is taken away, and nothing where that is more.
pub fn rest_of(amount: Pence, taken: Pence) -> Pence
    ensures { result ≡ amount - taken }
{
    Pence::new(amount.pence().saturating_sub(taken.pence()))
}

/// The band at a place in the fare file as the one that gives a day's price.
fn day_band(tables: &Tables, cells: &Cells, place: Option<u8>) -> Option<CappedBand>
    ensures { result ≡ band_at (sums_of_day tables.now cells.now) place }
{
    let place = place?;
    let band = tables.bands().get(usize::from(place))?;
    let outside = cells.outside_sum(band.cover);
    Some(CappedBand {
        place,
        cover: band.cover,
        cap: band.day,
        inside: rest_of(cells.capped_sum(), outside),
        outside,
    })
}

/// Why a day costs what it costs, by the sums of its fares: which offer is the least, and what that leaves
/// outside.
///
/// `tables` are those of the day. The band is the one that a statement names.
pub fn day_reason(tables: &Tables, cells: &Cells) -> CapReason
    ensures { result ≡ cap_reason (sums_of_day tables.now cells.now) }
{
    let (capped, place) = capped_price(tables, cells);
    CapReason {
        uncapped: cells.capped_sum(),
        band: day_band(tables, cells, place),
        maximum: cells.maximum(),
        price: capped + cells.maximum(),
    }
}
