//! What the text of a fare file calls its places and operators, and its currency.
ghost use Rattle.std.specs.Prelude.{◌≡◌, ◌≤◌, ◌++◌, IfOk, OnOk, codes, length, option_and_then, option_copied};
ghost use Rattle.std.specs.Char.{is_ascii_uppercase, is_control};
ghost use Rattle.std.specs.List.{list_all, list_any};
ghost use Rattle.std.specs.Str.{chars};
ghost use Rattle.toml.specs.Data.{as_array, as_str, as_table, get_member};
ghost use Rattle.toml.specs.View.{view, items_view, table_view};
ghost use Rattle.pay_names.specs.IsCalled.{IsCalled};
ghost use Rattle.pay_names.specs.Names.{called_in, called_in_text, currency_in, if_currency, is_currency, is_length, is_name, items_in, name_in};
ghost use Rattle.pay_names.specs.Names.{named, named_among, named_by, number_in, operators_in, or_no_items, places_in};
ghost use Rattle.pay_tables.specs.declared.limits.TheConstants.{MOST_PLACE};

use crate::named::Names;
use pay_fare_file::{Key, integer_at, member};
use pay_money::limits::OPERATORS;
use pay_tables::limits::MOST_PLACE;
use std::alloc::{AllocError, Global};
use toml::{Table, Value};

/// How many characters a name has at most.
pub const MOST_NAME: usize = 64;

/// The currency where a file says none.
const POUNDS: &str = "GBP";

/// What a fare file calls its places and its operators, and its currency.
#[derive(Drop)]
pub struct Called {
    /// The names of its stations, and then of its routes, each in the order of the file.
    pub places: Names,
    /// Those of its operators, which are numbered from 1 to 16.
    pub operators: Names,
    /// The currency of its amounts, as ISO 4217 has it: `GBP` where the file says none.
    pub currency: String,
}

/// What the text of a fare file calls its places and its operators, and its currency. A text that is no TOML has no names. An `Err` is
/// out of memory.
pub fn called_in(alloc: Global, text: &str) -> Result<Called, AllocError>
    ensures { IfOk result (λ it. IsCalled (called_in_text text.now) it) }
{
    match toml::table_from_str(alloc, text) {
        Ok(file) => called_in_file(alloc, &file),
        Err(error) if error.is_memory() => Err(AllocError),
        Err(_) => Ok(Called {
            places: Names::none(alloc),
            operators: Names::none(alloc),
            currency: String::from_str(alloc, POUNDS)?,
        }),
    }
}

/// What a file calls them.
fn called_in_file(alloc: Global, file: &Table) -> Result<Called, AllocError>
    ensures { IfOk result (λ it. IsCalled (called_in (table_view file.now)) it) }
{
    Ok(Called {
        places: places_in(alloc, file)?,
        operators: operators_in(alloc, file)?,
        currency: String::from_str(alloc, currency_in(file))?,
    })
}

/// The names of the stations and of the routes in a file.
fn places_in(alloc: Global, file: &Table) -> Result<Names, AllocError>
    ensures { IfOk result (λ names. names ≡ places_in (table_view file.now)) }
{
    let mut names = Names::none(alloc);
    add_names(
        &mut names,
        items_in(file, Key::Station.name()),
        Key::Place,
        MOST_PLACE,
    )?;
    add_names(
        &mut names,
        items_in(file, Key::Route.name()),
        Key::Place,
        MOST_PLACE,
    )?;
    Ok(names)
}

/// Those of the operators.
fn operators_in(alloc: Global, file: &Table) -> Result<Names, AllocError>
    ensures { IfOk result (λ names. names ≡ operators_in (table_view file.now)) }
{
    let mut names = Names::none(alloc);
    add_names(
        &mut names,
        items_in(file, "operators"),
        Key::Operator,
        OPERATORS as u32,
    )?;
    Ok(names)
}

/// The currency of a file.
fn currency_in(file: &Table) -> &str
    ensures { result.now ≡ currency_in (table_view file.now) }
{
    match currency_said(file) {
        Some(currency) => currency,
        None => POUNDS,
    }
}

/// The currency that it says, if that is one.
fn currency_said(file: &Table) -> Option<&str>
    ensures { option_copied result ≡ option_and_then if_currency (option_and_then as_str (get_member (codes "currency") (table_view file.now))) }
{
    let currency = member(file, "currency")?.as_str()?;
    if is_currency(currency.as_bytes()) {
        Some(currency)
    } else {
        None
    }
}

/// Whether a text is a currency: three capital letters.
fn is_currency(text: &[u8]) -> bool
    ensures { result ≡ is_currency text.now }
{
    text.len() == 3 && are_capitals(text)
}

fn are_capitals(text: &[u8]) -> bool
    ensures { result ≡ list_all is_ascii_uppercase text.now }
{
    text.iter().all(|letter| letter.is_ascii_uppercase())
}

/// The items of the array of a name.
fn items_in<'a>(file: &'a Table, array: &str) -> &'a [Value]
    ensures { items_view result.now ≡ items_in array.now (table_view file.now) }
{
    match member(file, array) {
        Some(value) => inner_items(value),
        None => &[],
    }
}

/// The items of a value, if it is an array.
fn inner_items(value: &Value) -> &[Value]
    ensures { items_view result.now ≡ or_no_items (as_array (view value.now)) }
{
    match value.as_array() {
        Some(items) => items.as_slice(),
        None => &[],
    }
}

/// Adds the names of tables that have a number at a key.
fn add_names(names: &mut Names, items: &[Value], key: Key, most: u32) -> Result<(), AllocError>
    requires { most ≤ MOST_PLACE }
    ensures { OnOk result (names.new ≡ names.old ++ named_among key most (items_view items.now)) }
{
    for item in items {
        add_item(names, item, key, most)?;
    }
    Ok(())
}

fn add_item(names: &mut Names, item: &Value, key: Key, most: u32) -> Result<(), AllocError>
    requires { most ≤ MOST_PLACE }
    ensures { OnOk result (names.new ≡ names.old ++ named_by key most (as_table (view item.now))) }
{
    match item.as_table() {
        Some(table) => add_name(names, table, key, most),
        None => Ok(()),
    }
}

/// Adds the name of a table, if it has a number and a name.
fn add_name(names: &mut Names, table: &Table, key: Key, most: u32) -> Result<(), AllocError>
    requires { most ≤ MOST_PLACE }
    ensures { OnOk result (names.new ≡ names.old ++ named (number_in key most (table_view table.now)) (name_in (table_view table.now))) }
{
    match (number_in(table, key, most), name_in(table)) {
        (Some(number), Some(name)) => names.add(number, name),
        _ => Ok(()),
    }
}

/// Its number.
fn number_in(table: &Table, key: Key, most: u32) -> Option<u16>
    requires { most ≤ MOST_PLACE }
    ensures { result ≡ number_in key most (table_view table.now) }
{
    match integer_at(table, key.name(), 1, most) {
        Ok(number) => Some(number as u16),
        Err(_) => None,
    }
}

/// Its name.
fn name_in(table: &Table) -> Option<&str>
    ensures { option_copied result ≡ name_in (table_view table.now) }
{
    let name = member(table, "name")?.as_str()?;
    if is_name(name) { Some(name) } else { None }
}

/// Whether a text is a name: 1 to 64 characters, none of them a control character.
fn is_name(text: &str) -> bool
    ensures { result ≡ is_name (chars text.now) }
{
    has_length(text) && !has_control(text)
}

#[tactic(auto, using(std::proofs::lemmas::Str::chars_from_encodes))]
fn has_length(text: &str) -> bool
    ensures { result ≡ is_length (length (chars text.now)) }
{
    is_length(text.chars().count())
}

fn is_length(count: usize) -> bool
    ensures { result ≡ is_length count }
{
    1 <= count && count <= MOST_NAME
}

fn has_control(text: &str) -> bool
    ensures { result ≡ list_any is_control (chars text.now) }
{
    text.chars().any(|c| c.is_control())
}
