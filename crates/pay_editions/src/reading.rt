//! The whole file, key by key.
ghost use Rattle.std.specs.Prelude.{◌≡◌, ◌≢◌, ◌≤◌, ◌↔◌, IfOk, IfErr, IsOk, None, Ok, Err};
ghost use Rattle.toml.specs.Parse.{parse_document};
ghost use Rattle.toml.specs.View.{table_view};
ghost use Rattle.pay_tables.specs.declared.limits.TheConstants.{MOST_ZONES};
ghost use Rattle.pay_fare_file.specs.declared.key.Key.TheVariants as key;
ghost use Rattle.pay_fare_file.specs.declared.spot.FaultPlace.TheVariants.{Own};
ghost use Rattle.pay_fare_file.specs.declared.spot.Spot.TheVariants.{AtKey};
ghost use Rattle.pay_fare_file.specs.Spots.{TellsUnlessMemory, integer_told, put_in};
ghost use Rattle.pay_fare_file.specs.FareFile.{zones_at, fare_file, fare_text};
ghost use Rattle.pay_fare_file.specs.FaultPlaces.{IsFaultPlace, TellsOfText, fare_file_told, own_keys_told};

use crate::editions::editions_told;
use crate::lines::no_document;
use pay_fare_file::{
    FareFileFault, FaultPlace, Key, Misread, Spot, bands_told, holidays_told, integer_told,
    interchanges_told, minutes_told, places_told, rules_at_told, singles_told,
};
use pay_tables::limits::MOST_ZONES;
use pay_tables::{Editions, FareParts, Tables};
use std::alloc::{AllocError, Global};
use toml::Table;

/// Reads the text of a fare file. The first fault is given, in the order of the keys; `Memory`
/// comes before any that would be found later.
pub fn read_editions(alloc: Global, text: &str) -> Result<Editions, FareFileFault>
    ensures not_toml { result ≡ Err FareFileFault.NotToml → parse_document text.now ≡ None }
    ensures ok { IfOk result (λ editions. fare_text text.now ≡ Ok editions) }
    ensures refused { IfErr result (λ fault. fault ≢ FareFileFault.Memory → fare_text text.now ≡ Err fault) }
{
    match read(alloc, text) {
        Ok(editions) => Ok(editions),
        Err(misread) => Err(misread.fault()),
    }
}

/// Where a text is at fault that `read_editions` refuses: the place of the fault that it gives. There is
/// none where the text is read.
pub fn fault_place(alloc: Global, text: &str) -> Result<Option<FaultPlace>, AllocError>
    ensures place { IfOk result (IsFaultPlace text.now) }
    ensures none { IfOk result (λ place. (place ≡ None) ↔ IsOk (fare_text text.now)) }
{
    find_place(alloc, text)
}

fn find_place(alloc: Global, text: &str) -> Result<Option<FaultPlace>, AllocError>
    ensures { IfOk result (IsFaultPlace text.now) }
{
    match read(alloc, text) {
        Ok(_) => Ok(None),
        Err(Misread::At(place, _)) => Ok(Some(place)),
        Err(Misread::Memory) => Err(AllocError),
    }
}

/// What a text says, or its first fault with its place.
fn read(alloc: Global, text: &str) -> Result<Editions, Misread<FaultPlace>>
    ensures { TellsOfText text.now result }
{
    match toml::table_from_str(alloc, text) {
        Ok(file) => editions_of(alloc, &file),
        Err(error) => Err(no_document(text, error)),
    }
}

/// Whether a document is a fare file, or its first fault.
pub fn check_file(alloc: Global, file: &Table) -> Result<(), FareFileFault>
    ensures ok { IfOk result (λ _. IsOk (fare_file (table_view file.now))) }
    ensures refused { IfErr result (λ fault. fault ≢ FareFileFault.Memory → fare_file (table_view file.now) ≡ Err fault) }
{
    if let Err(misread) = editions_of(alloc, file) {
        return Err(misread.fault());
    }
    Ok(())
}

/// What a document says.
fn editions_of(alloc: Global, file: &Table) -> Result<Editions, Misread<FaultPlace>>
    ensures value { TellsUnlessMemory (λ editions. editions) result (fare_file_told (table_view file.now)) }
    ensures memory { result ≡ Err Misread.Memory → IsOk (zones_at (table_view file.now)) }
{
    let own = tables_of_own(alloc, file)?;
    let items = editions_told(alloc, file, &own)?;
    Ok(Editions::new(own, items))
}

/// The tables of a document's own keys.
fn tables_of_own(alloc: Global, file: &Table) -> Result<Tables, Misread<FaultPlace>>
    ensures value { TellsUnlessMemory (λ tables. tables) result (put_in Own (own_keys_told (table_view file.now))) }
    ensures memory { result ≡ Err Misread.Memory → IsOk (zones_at (table_view file.now)) }
{
    match own_keys(alloc, file) {
        Ok(own) => Ok(own),
        Err(misread) => Err(misread.in_own()),
    }
}

/// What a document's own keys say.
fn own_keys(alloc: Global, file: &Table) -> Result<Tables, Misread<Spot>>
    ensures value { TellsUnlessMemory (λ tables. tables) result (own_keys_told (table_view file.now)) }
    ensures memory { result ≡ Err Misread.Memory → IsOk (zones_at (table_view file.now)) }
{
    let zones = zones_told(file)?;
    let minutes = minutes_told(alloc, file, zones)?;
    let rules = rules_at_told(file, None)?;
    let singles = singles_told(alloc, file, zones)?;
    let bands = bands_told(alloc, file, zones)?;
    let holidays = holidays_told(alloc, file)?;
    let places = places_told(alloc, file, zones)?;
    let interchanges = interchanges_told(alloc, file, &places)?;
    let tables = Tables::new(
        alloc,
        FareParts {
            zones,
            minutes,
            rules,
            singles,
            bands,
            holidays,
            places,
            interchanges,
        },
    )?;
    Ok(tables)
}

/// How many fare zones there are.
fn zones_told(file: &Table) -> Result<u8, Misread<Spot>>
    ensures value { result ≡ integer_told (AtKey key.Zones) 1 MOST_ZONES (table_view file.now) }
    ensures in_range { IfOk result (λ zones. (1 ≤ zones) × (zones ≤ MOST_ZONES)) }
{
    let zones = integer_told(file, Spot::AtKey(Key::Zones), 1, MOST_ZONES)?;
    Ok(zones as u8)
}
