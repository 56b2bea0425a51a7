//! The single fares, one for each span within the zones.
ghost use Rattle.std.specs.Prelude.{◌≡◌, [], Err, IsOk, codes};
ghost use Rattle.toml.specs.View.{view, items_view, table_view};
ghost use Rattle.pay_fare_file.specs.declared.key.Key.TheVariants as key;
ghost use Rattle.pay_fare_file.specs.declared.spot.Spot.TheVariants.{AtKey};
ghost use Rattle.pay_fare_file.specs.Fault.{Gives};
ghost use Rattle.pay_fare_file.specs.Keys.{array_at};
ghost use Rattle.pay_fare_file.specs.Spots.{TellsUnlessMemory, told};
ghost use Rattle.pay_fare_file.specs.FareFile.{with_each, complete, has_single, has_singles_from, has_each_single};
ghost use Rattle.pay_fare_file.specs.FaultPlaces.{with_single_told, another_single_told, single_told, singles_told};

use crate::fault::FareFileFault;
use crate::key::Key;
use crate::keys::{array_told, inner_table_told, integer_told, pence_told};
use crate::misread::Misread;
use crate::spot::Spot;
use pay_tables::{Single, Span};
use std::alloc::Global;
use toml::{Table, Value};

/// The single fares of a fare file.
pub fn singles_told(alloc: Global, file: &Table, zones: u8) -> Result<Vec<Single>, Misread<Spot>>
    ensures value { TellsUnlessMemory (λ singles. singles.items) result (singles_told zones (table_view file.now)) }
    ensures memory { result ≡ Err Misread.Memory → IsOk (array_at (codes "single") (table_view file.now)) }
{
    let items = array_told(file, Spot::AtKey(Key::Single))?;
    let singles = each_single(alloc, items, zones)?;
    complete(singles, zones)
}

/// The single fares that the items say.
fn each_single(alloc: Global, items: &[Value], zones: u8) -> Result<Vec<Single>, Misread<Spot>>
    ensures { TellsUnlessMemory (λ singles. singles.items) result (with_each (with_single_told zones) [] (items_view items.now)) }
{
    let mut singles = Vec::new(alloc);
    for item in items {
        let single = another_single(&singles, item, zones)?;
        singles.push(single)?;
    }
    Ok(singles)
}

/// The single fare that an item says, of a span that has none yet.
fn another_single(singles: &[Single], item: &Value, zones: u8) -> Result<Single, Misread<Spot>>
    ensures { result ≡ another_single_told zones singles.now (view item.now) }
{
    let number = singles.len() + 1;
    let single = single(item, zones, number)?;
    if has_single(singles, single.span) {
        return Err(Misread::At(Spot::AtItem(Key::Single, number), FareFileFault::Duplicate));
    }
    Ok(single)
}

/// The single fares, if each span within the zones has one.
fn complete(singles: Vec<Single>, zones: u8) -> Result<Vec<Single>, Misread<Spot>>
    ensures { Gives (λ singles. singles.items) result (told (AtKey key.Single) (complete zones singles.items)) }
{
    if !has_each_single(&singles, zones) {
        return Err(Misread::At(Spot::AtKey(Key::Single), FareFileFault::MissingKey));
    }
    Ok(singles)
}

fn single(item: &Value, zones: u8, number: usize) -> Result<Single, Misread<Spot>>
    ensures { result ≡ single_told zones number (view item.now) }
{
    let zones = u32::from(zones);
    let at = |key| Spot::InItem(Key::Single, number, key);
    let table = inner_table_told(item, Spot::AtItem(Key::Single, number))?;
    let from = integer_told(table, at(Key::From), 1, zones)?;
    let to = integer_told(table, at(Key::To), from, zones)?;
    let peak = pence_told(table, at(Key::Peak))?;
    let off = pence_told(table, at(Key::Off))?;
    Ok(Single {
        span: Span {
            from: from as u8,
            to: to as u8,
        },
        peak,
        off,
    })
}

/// Whether a span has a single fare.
fn has_single(singles: &[Single], span: Span) -> bool
    ensures { result ≡ has_single singles.now span }
{
    singles.iter().any(|single| single.span == span)
}

/// Whether each span from a zone on has one.
fn has_singles_from(singles: &[Single], zones: u8, from: u8) -> bool
    ensures { result ≡ has_singles_from singles.now zones from }
{
    (from..=zones).all(|to| has_single(singles, Span { from, to }))
}

/// Whether each span within the zones has one.
fn has_each_single(singles: &[Single], zones: u8) -> bool
    ensures { result ≡ has_each_single singles.now zones }
{
    (1..=zones).all(|from| has_singles_from(singles, zones, from))
}
