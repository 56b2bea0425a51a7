//! What there is to say of the tables of a file, or of an edition.
ghost use Rattle.std.specs.Prelude.{◌≡◌, IfOk};
ghost use Rattle.toml.specs.Data.{as_array, as_table};
ghost use Rattle.toml.specs.View.{view, items_view, table_view};
ghost use Rattle.pay_warnings.specs.Warnings.{Adds, array_said, at_spot, bands_said, in_table, items_in, items_said, or_no_items, rules_said, shared_said, table_said, whole};

use crate::fares::add_fares;
use crate::read_keys::keys_in;
use crate::unread::{add, add_unread};
use crate::warning::{Concern, TableAt, Warning};
use pay_fare_file::{Key, Spot, member};
use std::alloc::AllocError;
use toml::{Table, Value};

/// Adds what there is to say of the rules, the single fares and the bands of a file, or of the edition of a day.
pub fn add_shared(
    warnings: &mut Vec<Warning>,
    day: Option<u32>,
    file: &Table,
) -> Result<(), AllocError>
    ensures { IfOk result (λ _. Adds (shared_said day (table_view file.now)) warnings.old warnings.new) }
{
    add_rules(warnings, day, file)?;
    add_array(warnings, day, Key::Single, file)?;
    add_array(warnings, day, Key::Band, file)?;
    add_no_bands(warnings, day, file)
}

/// Of its rules.
fn add_rules(warnings: &mut Vec<Warning>, day: Option<u32>, file: &Table) -> Result<(), AllocError>
    ensures { IfOk result (λ _. Adds (rules_said day (table_view file.now)) warnings.old warnings.new) }
{
    let Some(value) = member(file, "rules") else {
        return Ok(());
    };
    add_value(
        warnings,
        at_spot(day, Spot::AtKey(Key::Rules)),
        Key::Rules,
        value,
    )
}

/// That it has no bands.
fn add_no_bands(
    warnings: &mut Vec<Warning>,
    day: Option<u32>,
    file: &Table,
) -> Result<(), AllocError>
    ensures { IfOk result (λ _. Adds (bands_said day (table_view file.now)) warnings.old warnings.new) }
{
    match items_in(file, Key::Band) {
        [] => add(warnings, whole(day), Concern::NoBands),
        _ => Ok(()),
    }
}

/// Adds what there is to say of each item of the array at a key.
pub fn add_array(
    warnings: &mut Vec<Warning>,
    day: Option<u32>,
    array: Key,
    file: &Table,
) -> Result<(), AllocError>
    ensures { IfOk result (λ _. Adds (array_said day array (table_view file.now)) warnings.old warnings.new) }
{
    add_items(warnings, day, array, items_in(file, array))
}

/// The items of the array at a key.
pub fn items_in(file: &Table, array: Key) -> &[Value]
    ensures { items_view result.now ≡ items_in array (table_view file.now) }
{
    match member(file, array.name()) {
        Some(value) => inner_items(value),
        None => &[],
    }
}

/// The items of a value, if it is an array.
fn inner_items(value: &Value) -> &[Value]
    ensures { items_view result.now ≡ or_no_items (as_array (view value.now)) }
{
    match value.as_array() {
        Some(items) => items.as_slice(),
        None => &[],
    }
}

fn add_items(
    warnings: &mut Vec<Warning>,
    day: Option<u32>,
    array: Key,
    items: &[Value],
) -> Result<(), AllocError>
    ensures { IfOk result (λ _. Adds (items_said day array 1 (items_view items.now)) warnings.old warnings.new) }
{
    let mut number = 1;
    for item in items {
        add_value(
            warnings,
            at_spot(day, Spot::AtItem(array, number)),
            array,
            item,
        )?;
        number += 1;
    }
    Ok(())
}

/// Adds what there is to say of a value, if it is a table.
fn add_value(
    warnings: &mut Vec<Warning>,
    at: TableAt,
    key: Key,
    value: &Value,
) -> Result<(), AllocError>
    ensures { IfOk result (λ _. Adds (in_table (table_said at key) (as_table (view value.now))) warnings.old warnings.new) }
{
    match value.as_table() {
        Some(table) => add_table(warnings, at, key, table),
        None => Ok(()),
    }
}

fn add_table(
    warnings: &mut Vec<Warning>,
    at: TableAt,
    key: Key,
    table: &Table,
) -> Result<(), AllocError>
    ensures { IfOk result (λ _. Adds (table_said at key (table_view table.now)) warnings.old warnings.new) }
{
    add_unread(warnings, at, keys_in(key), table)?;
    add_fares(warnings, at, key, table)
}

/// The file, or the edition of a day, as a whole.
pub fn whole(day: Option<u32>) -> TableAt
    ensures { result ≡ whole day }
{
    TableAt {
        edition: day,
        spot: None,
    }
}

/// A table there.
fn at_spot(day: Option<u32>, spot: Spot) -> TableAt
    ensures { result ≡ at_spot day spot }
{
    TableAt {
        edition: day,
        spot: Some(spot),
    }
}
