//! The places of the fare file.
ghost use Rattle.std.specs.Prelude.{◌≡◌, Err, IsOk, codes};
ghost use Rattle.toml.specs.View.{table_view};
ghost use Rattle.pay_tables.specs.declared.limits.TheConstants.{MOST_PLACES};
ghost use Rattle.pay_fare_file.specs.Spots.{TellsUnlessMemory};
ghost use Rattle.pay_fare_file.specs.Keys.{items_at};
ghost use Rattle.pay_fare_file.specs.FareFile.{unless_taken};
ghost use Rattle.pay_fare_file.specs.FaultPlaces.{places_told};

use crate::fault::FareFileFault;
use crate::key::Key;
use crate::keys::items_told;
use crate::misread::Misread;
use crate::routes::add_routes;
use crate::spot::Spot;
use crate::stations::add_stations;
use pay_tables::limits::MOST_PLACES;
use pay_tables::{Place, Places};
use std::alloc::Global;
use toml::Table;

/// The places of a fare file: its stations and its routes.
#[tactic(auto, using(crate::proofs::Items::items_len_view))]
pub fn places_told(alloc: Global, file: &Table, zones: u8) -> Result<Places, Misread<Spot>>
    ensures value { TellsUnlessMemory (λ places. places) result (places_told zones (table_view file.now)) }
    ensures memory { result ≡ Err Misread.Memory → IsOk (items_at (codes "station") MOST_PLACES (table_view file.now)) }
{
    let mut places = Places::new(alloc);
    let stations = items_told(file, Spot::AtKey(Key::Station), MOST_PLACES)?;
    add_stations(&mut places, stations, zones)?;
    let left = MOST_PLACES - stations.len();
    let routes = items_told(file, Spot::AtKey(Key::Route), left)?;
    add_routes(&mut places, routes)?;
    Ok(places)
}

/// A place with its number, which no other may have.
pub fn unless_taken(places: &Places, place: (u16, Place)) -> Result<(u16, Place), FareFileFault>
    ensures { result ≡ unless_taken places.now place }
{
    if places.contains(place.0) {
        return Err(FareFileFault::Duplicate);
    }
    Ok(place)
}
