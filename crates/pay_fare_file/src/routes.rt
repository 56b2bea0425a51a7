//! The bus and tram routes of the fare file.
ghost use Rattle.std.specs.Prelude.{◌≡◌};
ghost use Rattle.toml.specs.View.{view, items_view};
ghost use Rattle.pay_fare_file.specs.Spots.{TellsUnlessMemory};
ghost use Rattle.pay_fare_file.specs.FaultPlaces.{route_told, with_each_numbered, with_route_told};

use crate::key::Key;
use crate::keys::{inner_table_told, integer_told};
use crate::misread::{Misread, told};
use crate::places::unless_taken;
use crate::spot::Spot;
use pay_money::limits::OPERATORS;
use pay_tables::limits::MOST_PLACE;
use pay_tables::{Place, Places};
use toml::Value;

/// Adds the routes that the items say.
pub fn add_routes(places: &mut Places, items: &[Value]) -> Result<(), Misread<Spot>>
    ensures { TellsUnlessMemory (λ _. places.new) result (with_each_numbered with_route_told 1 places.old (items_view items.now)) }
{
    let mut number = 1;
    for item in items {
        let route = route(item, number)?;
        let spot = Spot::AtItem(Key::Route, number);
        let (free, place) = told(spot, unless_taken(places, route))?;
        places.put(free, place)?;
        number += 1;
    }
    Ok(())
}

fn route(item: &Value, number: usize) -> Result<(u16, Place), Misread<Spot>>
    ensures { result ≡ route_told number (view item.now) }
{
    let at = |key| Spot::InItem(Key::Route, number, key);
    let table = inner_table_told(item, Spot::AtItem(Key::Route, number))?;
    let place = integer_told(table, at(Key::Place), 1, MOST_PLACE)?;
    let operator = integer_told(table, at(Key::Operator), 1, OPERATORS as u32)?;
    Ok((
        place as u16,
        Place::Route {
            operator: operator as u8,
        },
    ))
}
