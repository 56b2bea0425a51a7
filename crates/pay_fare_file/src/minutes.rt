//! The minutes that a leg may last.
ghost use Rattle.std.specs.Prelude.{◌≡◌, [], Err, IsOk};
ghost use Rattle.toml.specs.View.{items_view, table_view};
ghost use Rattle.pay_fare_file.specs.Fault.{Gives};
ghost use Rattle.pay_fare_file.specs.Spots.{TellsUnlessMemory};
ghost use Rattle.pay_fare_file.specs.FareFile.{with_each, minutes_items_at};
ghost use Rattle.pay_fare_file.specs.FaultPlaces.{with_minutes_told, minutes_told};

use crate::fault::FareFileFault;
use crate::key::Key;
use crate::keys::{array_at, integer};
use crate::misread::{Misread, told};
use crate::spot::Spot;
use pay_tables::limits::MOST_MINUTES;
use std::alloc::Global;
use toml::{Table, Value};

/// How many minutes a leg may last that spans one zone, two zones and so on.
pub fn minutes_told(alloc: Global, file: &Table, zones: u8) -> Result<Vec<u32>, Misread<Spot>>
    ensures value { TellsUnlessMemory (λ minutes. minutes.items) result (minutes_told zones (table_view file.now)) }
    ensures memory { result ≡ Err Misread.Memory → IsOk (minutes_items_at zones (table_view file.now)) }
{
    let items = told(Spot::AtKey(Key::Minutes), minutes_items_at(file, zones))?;
    each_minutes(alloc, items)
}

/// The items of the minutes, one for each count of zones.
#[tactic(auto, using(crate::proofs::Items::items_len_view))]
fn minutes_items_at(file: &Table, zones: u8) -> Result<&[Value], FareFileFault>
    ensures { Gives (λ items. items_view items.now) result (minutes_items_at zones (table_view file.now)) }
{
    let items = array_at(file, "minutes")?;
    if items.len() != usize::from(zones) {
        return Err(FareFileFault::OutOfRange);
    }
    Ok(items)
}

/// The numbers of minutes that the items say.
fn each_minutes(alloc: Global, items: &[Value]) -> Result<Vec<u32>, Misread<Spot>>
    ensures { TellsUnlessMemory (λ minutes. minutes.items) result (with_each with_minutes_told [] (items_view items.now)) }
{
    let mut minutes = Vec::new(alloc);
    for item in items {
        let spot = Spot::AtItem(Key::Minutes, minutes.len() + 1);
        let number = told(spot, integer(item, 1, MOST_MINUTES))?;
        minutes.push(number)?;
    }
    Ok(minutes)
}
