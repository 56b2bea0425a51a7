//! The stations of the fare file.
ghost use Rattle.std.specs.Prelude.{◌≡◌, ◌≤◌, ◌+◌, min};
ghost use Rattle.toml.specs.View.{view, items_view};
ghost use Rattle.pay_fare_file.specs.Spots.{TellsUnlessMemory};
ghost use Rattle.pay_fare_file.specs.FaultPlaces.{station_told, with_each_numbered, with_station_told};

use crate::key::Key;
use crate::keys::{inner_table_told, integer_told};
use crate::misread::{Misread, told};
use crate::places::unless_taken;
use crate::spot::Spot;
use pay_money::limits::OPERATORS;
use pay_tables::limits::MOST_PLACE;
use pay_tables::{Place, Places};
use toml::Value;

/// Adds the stations that the items say.
pub fn add_stations(places: &mut Places, items: &[Value], zones: u8) -> Result<(), Misread<Spot>>
    ensures { TellsUnlessMemory (λ _. places.new) result (with_each_numbered (with_station_told zones) 1 places.old (items_view items.now)) }
{
    let mut number = 1;
    for item in items {
        let station = station(item, zones, number)?;
        let spot = Spot::AtItem(Key::Station, number);
        let (free, place) = told(spot, unless_taken(places, station))?;
        places.put(free, place)?;
        number += 1;
    }
    Ok(())
}

fn station(item: &Value, zones: u8, number: usize) -> Result<(u16, Place), Misread<Spot>>
    ensures { result ≡ station_told zones number (view item.now) }
{
    let table = inner_table_told(item, Spot::AtItem(Key::Station, number))?;
    let spot = Spot::InItem(Key::Station, number, Key::Place);
    let place = integer_told(table, spot, 1, MOST_PLACE)?;
    let spot = Spot::InItem(Key::Station, number, Key::Low);
    let low = integer_told(table, spot, 1, u32::from(zones))?;
    let spot = Spot::InItem(Key::Station, number, Key::High);
    let high = integer_told(table, spot, low, greatest_high(zones, low))?;
    let spot = Spot::InItem(Key::Station, number, Key::Operator);
    let operator = integer_told(table, spot, 1, OPERATORS as u32)?;
    Ok((
        place as u16,
        Place::Station {
            low: low as u8,
            high: high as u8,
            operator: operator as u8,
        },
    ))
}

/// The greatest higher zone of a station, by its lower one.
fn greatest_high(zones: u8, low: u32) -> u32
    requires { low ≤ zones }
    ensures { result ≡ min (low + 1) zones }
{
    u32::from(zones).min(low + 1)
}
