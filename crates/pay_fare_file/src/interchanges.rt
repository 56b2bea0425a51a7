//! The interchanges.
ghost use Rattle.std.specs.Prelude.{◌≡◌, ◌≤◌, [], Err, IfOk, IsOk, codes};
ghost use Rattle.toml.specs.View.{view, items_view, table_view};
ghost use Rattle.pay_tables.specs.declared.limits.TheConstants.{MOST_INTERCHANGES, MOST_PLACE};
ghost use Rattle.pay_fare_file.specs.Keys.{items_at};
ghost use Rattle.pay_fare_file.specs.Spots.{TellsUnlessMemory};
ghost use Rattle.pay_fare_file.specs.FareFile.{another_at, joins_stations, has_interchange, is_station_at, unless_joined, with_each};
ghost use Rattle.pay_fare_file.specs.FaultPlaces.{another_interchange_told, interchange_told, interchanges_told, with_interchange_told};

use crate::fault::FareFileFault;
use crate::key::Key;
use crate::keys::{inner_table_told, integer_at, integer_told, items_told};
use crate::misread::{Misread, told};
use crate::spot::Spot;
use pay_tables::limits::{MOST_INTERCHANGE_SECONDS, MOST_INTERCHANGES, MOST_PLACE};
use pay_tables::{Interchange, Place, Places};
use std::alloc::Global;
use toml::{Table, Value};

/// The interchanges of a fare file, which are between its stations.
pub fn interchanges_told(
    alloc: Global,
    file: &Table,
    places: &Places,
) -> Result<Vec<Interchange>, Misread<Spot>>
    ensures value { TellsUnlessMemory (λ interchanges. interchanges.items) result (interchanges_told places.now (table_view file.now)) }
    ensures memory { result ≡ Err Misread.Memory → IsOk (items_at (codes "interchange") MOST_INTERCHANGES (table_view file.now)) }
{
    let items = items_told(file, Spot::AtKey(Key::Interchange), MOST_INTERCHANGES)?;
    each_interchange(alloc, items, places)
}

/// The interchanges that the items say.
fn each_interchange(
    alloc: Global,
    items: &[Value],
    places: &Places,
) -> Result<Vec<Interchange>, Misread<Spot>>
    ensures { TellsUnlessMemory (λ interchanges. interchanges.items) result (with_each (with_interchange_told places.now) [] (items_view items.now)) }
{
    let mut interchanges = Vec::new(alloc);
    for item in items {
        let pair = another_interchange(&interchanges, item, places)?;
        interchanges.push(pair)?;
    }
    Ok(interchanges)
}

/// The interchange that an item says, between stations that have none yet.
fn another_interchange(
    interchanges: &[Interchange],
    item: &Value,
    places: &Places,
) -> Result<Interchange, Misread<Spot>>
    ensures { result ≡ another_interchange_told places.now interchanges.now (view item.now) }
{
    let number = interchanges.len() + 1;
    let pair = interchange(item, number)?;
    let spot = Spot::AtItem(Key::Interchange, number);
    if !joins_stations(places, pair) {
        return Err(Misread::At(spot, FareFileFault::UnknownPlace));
    }
    if has_interchange(interchanges, pair) {
        return Err(Misread::At(spot, FareFileFault::Duplicate));
    }
    Ok(pair)
}

fn interchange(item: &Value, number: usize) -> Result<Interchange, Misread<Spot>>
    ensures { result ≡ interchange_told number (view item.now) }
{
    let at = |key| Spot::InItem(Key::Interchange, number, key);
    let table = inner_table_told(item, Spot::AtItem(Key::Interchange, number))?;
    let a = integer_told(table, at(Key::A), 1, MOST_PLACE)?;
    let b = told(at(Key::B), another_at(table, "b", a))?;
    let seconds = integer_told(table, at(Key::Seconds), 1, MOST_INTERCHANGE_SECONDS)?;
    Ok(Interchange {
        a: a as u16,
        b: b as u16,
        seconds,
    })
}

/// The number of a place at a key, which may not be a given one.
fn another_at(table: &Table, key: &str, number: u32) -> Result<u32, FareFileFault>
    ensures value { result ≡ another_at number key.now (table_view table.now) }
    ensures range { IfOk result (λ n. (1 ≤ n) × (n ≤ MOST_PLACE)) }
{
    let other = integer_at(table, key, 1, MOST_PLACE)?;
    if other == number {
        return Err(FareFileFault::OutOfRange);
    }
    Ok(other)
}

/// Whether an interchange is between two stations.
fn joins_stations(places: &Places, pair: Interchange) -> bool
    ensures { result ≡ joins_stations places.now pair }
{
    is_station(places, pair.a) && is_station(places, pair.b)
}

/// Whether a station stands at a number.
fn is_station(places: &Places, number: u16) -> bool
    ensures { result ≡ is_station_at places.now number }
{
    matches!(places.get(number), Some(Place::Station { .. }))
}

/// Whether an interchange is there between the same two stations, in either order.
fn has_interchange(interchanges: &[Interchange], pair: Interchange) -> bool
    ensures { result ≡ has_interchange interchanges.now pair }
{
    interchanges
        .iter()
        .any(|other| other.is_between(pair.a, pair.b))
}
