//! The public holidays.
ghost use Rattle.std.specs.Prelude.{◌≡◌, [], Err, IsOk, codes};
ghost use Rattle.toml.specs.View.{view, items_view, table_view};
ghost use Rattle.pay_tables.specs.declared.limits.TheConstants.{MOST_HOLIDAYS};
ghost use Rattle.pay_fare_file.specs.Keys.{items_at};
ghost use Rattle.pay_fare_file.specs.Spots.{TellsUnlessMemory};
ghost use Rattle.pay_fare_file.specs.FareFile.{another_holiday, has_holiday, with_each};
ghost use Rattle.pay_fare_file.specs.FaultPlaces.{another_holiday_told, holidays_told, with_holiday_told};

use crate::fault::FareFileFault;
use crate::key::Key;
use crate::keys::{integer, items_told};
use crate::misread::{Misread, told};
use crate::spot::Spot;
use pay_day::limits::{FIRST_DAY, LAST_DAY};
use pay_tables::limits::MOST_HOLIDAYS;
use std::alloc::Global;
use toml::{Table, Value};

/// The service days that are public holidays, by their numbers.
pub fn holidays_told(alloc: Global, file: &Table) -> Result<Vec<u32>, Misread<Spot>>
    ensures value { TellsUnlessMemory (λ holidays. holidays.items) result (holidays_told (table_view file.now)) }
    ensures memory { result ≡ Err Misread.Memory → IsOk (items_at (codes "holidays") MOST_HOLIDAYS (table_view file.now)) }
{
    let items = items_told(file, Spot::AtKey(Key::Holidays), MOST_HOLIDAYS)?;
    each_holiday(alloc, items)
}

/// The days that the items say.
fn each_holiday(alloc: Global, items: &[Value]) -> Result<Vec<u32>, Misread<Spot>>
    ensures { TellsUnlessMemory (λ holidays. holidays.items) result (with_each with_holiday_told [] (items_view items.now)) }
{
    let mut holidays = Vec::new(alloc);
    for item in items {
        let day = another_holiday_told(&holidays, item)?;
        holidays.push(day)?;
    }
    Ok(holidays)
}

/// The day that an item says, which is not among the holidays yet, or its fault with its place.
fn another_holiday_told(holidays: &[u32], item: &Value) -> Result<u32, Misread<Spot>>
    ensures { result ≡ another_holiday_told holidays.now (view item.now) }
{
    let spot = Spot::AtItem(Key::Holidays, holidays.len() + 1);
    told(spot, another_holiday(holidays, item))
}

/// The day that an item says, which is not among the holidays yet.
fn another_holiday(holidays: &[u32], item: &Value) -> Result<u32, FareFileFault>
    ensures { result ≡ another_holiday holidays.now (view item.now) }
{
    let day = integer(item, FIRST_DAY, LAST_DAY)?;
    if has_holiday(holidays, day) {
        return Err(FareFileFault::Duplicate);
    }
    Ok(day)
}

/// Whether a day is among the holidays.
fn has_holiday(holidays: &[u32], day: u32) -> bool
    ensures { result ≡ has_holiday holidays.now day }
{
    holidays.contains(&day)
}
