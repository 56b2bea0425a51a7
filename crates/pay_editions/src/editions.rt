//! The editions: fares that hold from a day on.
ghost use Rattle.std.specs.Prelude.{◌≡◌, ◌≤◌, ◌<◌, [], Err, IfOk, IfSome, IsOk, OnOk, codes, length};
ghost use Rattle.std.specs.List.{position};
ghost use Rattle.toml.specs.View.{view, items_view, table_view};
ghost use Rattle.pay_day.specs.declared.limits.TheConstants.{LAST_DAY};
ghost use Rattle.pay_tables.specs.declared.limits.TheConstants.{MOST_EDITIONS};
ghost use Rattle.pay_fare_file.specs.declared.key.Key.TheVariants as key;
ghost use Rattle.pay_fare_file.specs.declared.spot.FaultPlace.TheVariants.{Own, OfEdition};
ghost use Rattle.pay_fare_file.specs.declared.spot.Spot.TheVariants.{AtItem};
ghost use Rattle.pay_fare_file.specs.Fault.{Gives};
ghost use Rattle.pay_fare_file.specs.Keys.{items_at, table_of};
ghost use Rattle.pay_fare_file.specs.Spots.{TellsUnlessMemory, put_in, told};
ghost use Rattle.pay_fare_file.specs.FareFile.{begins_before, has_edition, put_edition, with_each};
ghost use Rattle.pay_fare_file.specs.FaultPlaces.{another_edition_told, bands_told, day_told, edition_told, editions_told, tables_of_edition_told, with_edition_told};

use pay_day::limits::{FIRST_DAY, LAST_DAY};
use pay_fare_file::{
    FareFileFault, FaultPlace, Key, Misread, Spot, bands_told, inner_table_told, integer_told,
    items_told, minutes_told, rules_at_told, singles_told,
};
use pay_tables::limits::MOST_EDITIONS;
use pay_tables::{Band, Edition, EditionParts, Tables};
use std::alloc::{AllocError, Global};
use toml::{Table, Value};

/// The editions of a fare file whose own keys say so much.
pub fn editions_told(
    alloc: Global,
    file: &Table,
    own: &Tables,
) -> Result<Vec<Edition>, Misread<FaultPlace>>
    ensures value { TellsUnlessMemory (λ editions. editions.items) result (editions_told own.now (table_view file.now)) }
    ensures memory { result ≡ Err Misread.Memory → IsOk (items_at (codes "edition") MOST_EDITIONS (table_view file.now)) }
{
    match items_told(file, Spot::AtKey(Key::Edition), MOST_EDITIONS) {
        Ok(items) => each_edition(alloc, items, own),
        Err(misread) => Err(misread.in_own()),
    }
}

/// The editions that the items say, from the one that begins last on.
fn each_edition(
    alloc: Global,
    items: &[Value],
    own: &Tables,
) -> Result<Vec<Edition>, Misread<FaultPlace>>
    ensures { TellsUnlessMemory (λ editions. editions.items) result (with_each (with_edition_told own.now) [] (items_view items.now)) }
{
    let mut editions = Vec::new(alloc);
    for item in items {
        let edition = another_edition(alloc, &editions, item, own)?;
        put(&mut editions, edition)?;
    }
    Ok(editions)
}

/// The edition that an item says, from a day on which none begins yet.
fn another_edition(
    alloc: Global,
    editions: &[Edition],
    item: &Value,
    own: &Tables,
) -> Result<Edition, Misread<FaultPlace>>
    ensures { TellsUnlessMemory (λ edition. edition) result (another_edition_told own.now editions.now (view item.now)) }
{
    let number = editions.len() + 1;
    let edition = edition(alloc, item, own, number)?;
    if has_edition(editions, edition.day) {
        let spot = Spot::InItem(Key::Edition, number, Key::Day);
        return Err(Misread::At(FaultPlace::Own(spot), FareFileFault::Duplicate));
    }
    Ok(edition)
}

fn edition(
    alloc: Global,
    item: &Value,
    own: &Tables,
    number: usize,
) -> Result<Edition, Misread<FaultPlace>>
    ensures { TellsUnlessMemory (λ edition. edition) result (edition_told own.now number (view item.now)) }
{
    let table = edition_table(item, number)?;
    let day = edition_day(table, number)?;
    let tables = tables_on(alloc, table, own, day)?;
    Ok(Edition { day, tables })
}

/// The table of an edition.
fn edition_table(item: &Value, number: usize) -> Result<&Table, Misread<FaultPlace>>
    ensures { Gives (λ t. table_view t.now) result (told (Own (AtItem key.Edition number)) (table_of (view item.now))) }
{
    match inner_table_told(item, Spot::AtItem(Key::Edition, number)) {
        Ok(table) => Ok(table),
        Err(misread) => Err(misread.in_own()),
    }
}

/// The first day of an edition.
fn edition_day(table: &Table, number: usize) -> Result<u32, Misread<FaultPlace>>
    ensures value { result ≡ put_in Own (day_told number (table_view table.now)) }
    ensures range { IfOk result (λ day. day ≤ LAST_DAY) }
{
    let spot = Spot::InItem(Key::Edition, number, Key::Day);
    match integer_told(table, spot, FIRST_DAY + 1, LAST_DAY) {
        Ok(day) => Ok(day),
        Err(misread) => Err(misread.in_own()),
    }
}

/// The tables of the edition of a day.
fn tables_on(
    alloc: Global,
    table: &Table,
    own: &Tables,
    day: u32,
) -> Result<Tables, Misread<FaultPlace>>
    ensures { TellsUnlessMemory (λ tables. tables) result (put_in (OfEdition day) (tables_of_edition_told own.now (table_view table.now))) }
{
    match tables_of_edition(alloc, table, own) {
        Ok(tables) => Ok(tables),
        Err(misread) => Err(misread.in_edition(day)),
    }
}

/// The tables of an edition: it says anew what its keys name, and the rest is the file's own.
fn tables_of_edition(alloc: Global, table: &Table, own: &Tables) -> Result<Tables, Misread<Spot>>
    ensures { TellsUnlessMemory (λ tables. tables) result (tables_of_edition_told own.now (table_view table.now)) }
{
    let zones = own.zones();
    let minutes = minutes_told(alloc, table, zones)?;
    let rules = rules_at_told(table, Some(own.rules().hopper))?;
    let singles = singles_told(alloc, table, zones)?;
    let bands = bands_of(alloc, table, own)?;
    pay_tables::laws::in_range(own);
    let tables = own.edition(EditionParts {
        minutes,
        rules,
        singles,
        bands,
    })?;
    Ok(tables)
}

/// The bands of an edition of a file whose own keys say so much: where it has none, there are none.
fn bands_of(alloc: Global, table: &Table, own: &Tables) -> Result<Vec<Band>, Misread<Spot>>
    ensures { TellsUnlessMemory (λ bands. bands.items) result (bands_told own.now.zones (table_view table.now)) }
{
    bands_told(alloc, table, own.zones())
}

/// Puts an edition before the first that begins earlier.
fn put(editions: &mut Vec<Edition>, edition: Edition) -> Result<(), AllocError>
    ensures { OnOk result (editions.new.items ≡ put_edition edition editions.old.items) }
{
    let place = first_before(editions, edition.day).unwrap_or(editions.len());
    editions.insert(place, edition)?;
    Ok(())
}

/// Where the first edition stands that begins before a day.
fn first_before(editions: &[Edition], day: u32) -> Option<usize>
    ensures value { result ≡ position (begins_before day) editions.now }
    ensures within { IfSome result (λ place. place < length editions.now) }
{
    editions.iter().position(|edition| edition.day < day)
}

/// Whether an edition begins on a day.
fn has_edition(editions: &[Edition], day: u32) -> bool
    ensures { result ≡ has_edition editions.now day }
{
    editions.iter().any(|edition| day == edition.day)
}
