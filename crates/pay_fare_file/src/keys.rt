//! What stands at one key of a table, or the fault there.
ghost use Rattle.std.specs.Prelude.{◌≡◌, ◌≤◌, IfOk, length, option_map};
ghost use Rattle.toml.specs.Data.{get_member};
ghost use Rattle.toml.specs.View.{view, table_view, items_view};
ghost use Rattle.pay_tables.specs.declared.limits.TheConstants.{MOST_FARE};
ghost use Rattle.pay_fare_file.specs.Fault.{Gives};
ghost use Rattle.pay_fare_file.specs.Keys.{integer_in, integer_of, integer_at, table_of, table_at, array_of, array_at, items_of, items_at};
ghost use Rattle.pay_fare_file.specs.Spots.{told, integer_told, table_told, array_told, items_told};

use crate::fault::FareFileFault;
use crate::misread::{Misread, told};
use crate::spot::Spot;
use pay_money::Pence;
use pay_tables::limits::MOST_FARE;
use toml::{Table, Value};

/// What stands at a key.
pub fn member<'a>(table: &'a Table, key: &str) -> Option<&'a Value>
    ensures { option_map (λ v. view v.now) result ≡ get_member key.now (table_view table.now) }
{
    table.get(key)
}

/// The integer at the key of a place, which must be there, if it is from `least` to `most`.
pub fn integer_told(table: &Table, spot: Spot, least: u32, most: u32) -> Result<u32, Misread<Spot>>
    ensures value { result ≡ integer_told spot least most (table_view table.now) }
    ensures range { IfOk result (λ n. (least ≤ n) × (n ≤ most)) }
{
    told(spot, integer_at(table, spot.key().name(), least, most))
}

/// The integer at a key that must be there, if it is from `least` to `most`.
pub fn integer_at(table: &Table, key: &str, least: u32, most: u32) -> Result<u32, FareFileFault>
    ensures value { result ≡ integer_at key.now least most (table_view table.now) }
    ensures range { IfOk result (λ n. (least ≤ n) × (n ≤ most)) }
{
    match member(table, key) {
        Some(value) => integer(value, least, most),
        None => Err(FareFileFault::MissingKey),
    }
}

/// The value as an integer, if it is from `least` to `most`.
pub fn integer(value: &Value, least: u32, most: u32) -> Result<u32, FareFileFault>
    ensures value { result ≡ integer_of least most (view value.now) }
    ensures range { IfOk result (λ n. (least ≤ n) × (n ≤ most)) }
{
    match value.as_integer() {
        Some(number) => in_range(number, least, most),
        None => Err(FareFileFault::WrongType),
    }
}

fn in_range(number: i64, least: u32, most: u32) -> Result<u32, FareFileFault>
    ensures value { result ≡ integer_in least most number }
    ensures range { IfOk result (λ n. (least ≤ n) × (n ≤ most)) }
{
    match u32::try_from(number) {
        Ok(number) if least <= number && number <= most => Ok(number),
        _ => Err(FareFileFault::OutOfRange),
    }
}

/// The amount of money at the key of a place, which must be there.
pub fn pence_told(table: &Table, spot: Spot) -> Result<Pence, Misread<Spot>>
    ensures value { result ≡ integer_told spot 0 MOST_FARE (table_view table.now) }
    ensures range { IfOk result (λ pence. pence ≤ MOST_FARE) }
{
    let pence = integer_told(table, spot, 0, MOST_FARE)?;
    Ok(Pence::new(u64::from(pence)))
}

/// The table at the key of a place, which must be there.
pub fn table_told(table: &Table, spot: Spot) -> Result<&Table, Misread<Spot>>
    ensures { Gives (λ t. table_view t.now) result (table_told spot (table_view table.now)) }
{
    told(spot, table_at(table, spot.key().name()))
}

/// The table at a key that must be there.
fn table_at<'a>(table: &'a Table, key: &str) -> Result<&'a Table, FareFileFault>
    ensures { Gives (λ t. table_view t.now) result (table_at key.now (table_view table.now)) }
{
    match member(table, key) {
        Some(value) => inner_table(value),
        None => Err(FareFileFault::MissingKey),
    }
}

/// The value at a place as a table.
pub fn inner_table_told(value: &Value, spot: Spot) -> Result<&Table, Misread<Spot>>
    ensures { Gives (λ t. table_view t.now) result (told spot (table_of (view value.now))) }
{
    told(spot, inner_table(value))
}

/// The value as a table.
fn inner_table(value: &Value) -> Result<&Table, FareFileFault>
    ensures { Gives (λ t. table_view t.now) result (table_of (view value.now)) }
{
    match value.as_table() {
        Some(table) => Ok(table),
        None => Err(FareFileFault::WrongType),
    }
}

/// The items of an array that must be there.
pub fn array_at<'a>(table: &'a Table, key: &str) -> Result<&'a [Value], FareFileFault>
    ensures { Gives (λ items. items_view items.now) result (array_at key.now (table_view table.now)) }
{
    match member(table, key) {
        Some(value) => inner_array(value),
        None => Err(FareFileFault::MissingKey),
    }
}

/// The items of the array at the key of a place, which must be there.
pub fn array_told(table: &Table, spot: Spot) -> Result<&[Value], Misread<Spot>>
    ensures { Gives (λ items. items_view items.now) result (array_told spot (table_view table.now)) }
{
    told(spot, array_at(table, spot.key().name()))
}

/// The items of the array at the key of a place, which may be missing, if they are no more than `most`.
pub fn items_told(table: &Table, spot: Spot, most: usize) -> Result<&[Value], Misread<Spot>>
    ensures value { Gives (λ items. items_view items.now) result (items_told spot most (table_view table.now)) }
    ensures count { IfOk result (λ items. length items.now ≤ most) }
{
    told(spot, items_at(table, spot.key().name(), most))
}

/// The items of an array that may be missing, if they are no more than `most`. A missing one has none.
fn items_at<'a>(table: &'a Table, key: &str, most: usize) -> Result<&'a [Value], FareFileFault>
    ensures value { Gives (λ items. items_view items.now) result (items_at key.now most (table_view table.now)) }
    ensures count { IfOk result (λ items. length items.now ≤ most) }
{
    match member(table, key) {
        Some(value) => items(value, most),
        None => Ok(&[]),
    }
}

#[tactic(auto, using(crate::proofs::Items::items_len_view))]
fn items(value: &Value, most: usize) -> Result<&[Value], FareFileFault>
    ensures value { Gives (λ items. items_view items.now) result (items_of most (view value.now)) }
    ensures count { IfOk result (λ items. length items.now ≤ most) }
{
    let items = inner_array(value)?;
    if items.len() > most {
        return Err(FareFileFault::TooMany);
    }
    Ok(items)
}

fn inner_array(value: &Value) -> Result<&[Value], FareFileFault>
    ensures { Gives (λ items. items_view items.now) result (array_of (view value.now)) }
{
    match value.as_array() {
        Some(items) => Ok(items.as_slice()),
        None => Err(FareFileFault::WrongType),
    }
}
