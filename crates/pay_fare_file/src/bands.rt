//! The bands: what the covered journeys of a day and of a week cost at most.
ghost use Rattle.std.specs.Prelude.{◌≡◌, [], Err, IsOk, codes};
ghost use Rattle.toml.specs.View.{view, items_view, table_view};
ghost use Rattle.pay_tables.specs.declared.limits.TheConstants.{MOST_BANDS};
ghost use Rattle.pay_fare_file.specs.Keys.{items_at};
ghost use Rattle.pay_fare_file.specs.Spots.{TellsUnlessMemory};
ghost use Rattle.pay_fare_file.specs.FareFile.{cover_from, greatest_to, has_band, with_each};
ghost use Rattle.pay_fare_file.specs.FaultPlaces.{another_band_told, band_told, bands_told, cover_told, with_band_told};

use crate::fault::FareFileFault;
use crate::key::Key;
use crate::keys::{inner_table_told, integer_told, items_told, pence_told};
use crate::misread::Misread;
use crate::spot::Spot;
use pay_tables::limits::MOST_BANDS;
use pay_tables::{Band, Cover, Span};
use std::alloc::Global;
use toml::{Table, Value};

/// The bands of a fare file.
pub fn bands_told(alloc: Global, file: &Table, zones: u8) -> Result<Vec<Band>, Misread<Spot>>
    ensures value { TellsUnlessMemory (λ bands. bands.items) result (bands_told zones (table_view file.now)) }
    ensures memory { result ≡ Err Misread.Memory → IsOk (items_at (codes "band") MOST_BANDS (table_view file.now)) }
{
    let items = items_told(file, Spot::AtKey(Key::Band), MOST_BANDS)?;
    each_band(alloc, items, zones)
}

/// The bands that the items say.
fn each_band(alloc: Global, items: &[Value], zones: u8) -> Result<Vec<Band>, Misread<Spot>>
    ensures { TellsUnlessMemory (λ bands. bands.items) result (with_each (with_band_told zones) [] (items_view items.now)) }
{
    let mut bands = Vec::new(alloc);
    for item in items {
        let band = another_band(&bands, item, zones)?;
        bands.push(band)?;
    }
    Ok(bands)
}

/// The band that an item says, of a cover that has none yet.
fn another_band(bands: &[Band], item: &Value, zones: u8) -> Result<Band, Misread<Spot>>
    ensures { result ≡ another_band_told zones bands.now (view item.now) }
{
    let number = bands.len() + 1;
    let band = band(item, zones, number)?;
    if has_band(bands, band.cover) {
        return Err(Misread::At(Spot::AtItem(Key::Band, number), FareFileFault::Duplicate));
    }
    Ok(band)
}

fn band(item: &Value, zones: u8, number: usize) -> Result<Band, Misread<Spot>>
    ensures { result ≡ band_told zones number (view item.now) }
{
    let table = inner_table_told(item, Spot::AtItem(Key::Band, number))?;
    let cover = cover(table, zones, number)?;
    let day = pence_told(table, Spot::InItem(Key::Band, number, Key::Day))?;
    let week = pence_told(table, Spot::InItem(Key::Band, number, Key::Week))?;
    Ok(Band { cover, day, week })
}

/// What a band covers, by its first zone and its last.
fn cover(table: &Table, zones: u8, number: usize) -> Result<Cover, Misread<Spot>>
    ensures { result ≡ cover_told zones number (table_view table.now) }
{
    let zones = u32::from(zones);
    let first = Spot::InItem(Key::Band, number, Key::From);
    let last = Spot::InItem(Key::Band, number, Key::To);
    let from = integer_told(table, first, 0, zones)?;
    let to = integer_told(table, last, from, greatest_to(zones, from))?;
    Ok(cover_from(from as u8, to as u8))
}

/// The greatest last zone of a band that begins at a zone: one from 0 is that of the buses, and ends
/// there.
fn greatest_to(zones: u32, from: u32) -> u32
    ensures { result ≡ greatest_to zones from }
{
    if from == 0 { 0 } else { zones }
}

/// What is covered from one zone to another: from 0 on the buses.
fn cover_from(from: u8, to: u8) -> Cover
    ensures { result ≡ cover_from from to }
{
    if from == 0 {
        return Cover::Buses;
    }
    Cover::Zones(Span { from, to })
}

/// Whether there is a band with the same cover.
fn has_band(bands: &[Band], cover: Cover) -> bool
    ensures { result ≡ has_band bands.now cover }
{
    bands.iter().any(|band| cover.same_as(band.cover))
}
