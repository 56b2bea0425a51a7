//! The keys of a table that nothing reads.
ghost use Rattle.std.specs.Prelude.{◌≡◌, IfOk, [], ◌∷◌, string_bytes};
ghost use Rattle.toml.specs.View.{table_view};
ghost use Rattle.pay_warnings.specs.Warnings.{Adds, is_label_of_file, is_name, is_own, may_have_name, says_of, unread, unread_key};

use crate::read_keys::is_among;
use crate::warning::{Concern, TableAt, Warning};
use pay_fare_file::{Key, Spot};
use std::alloc::AllocError;
use toml::Table;

/// Adds what there is to say of a table.
pub fn add(warnings: &mut Vec<Warning>, table: TableAt, concern: Concern) -> Result<(), AllocError>
    ensures { IfOk result (λ _. Adds (says_of table concern ∷ []) warnings.old warnings.new) }
{
    warnings.push(Warning { table, concern })?;
    Ok(())
}

/// Adds each key of a table that is not among those that are read.
pub fn add_unread(
    warnings: &mut Vec<Warning>,
    at: TableAt,
    known: &[Key],
    table: &Table,
) -> Result<(), AllocError>
    ensures { IfOk result (λ _. Adds (unread at known.now (table_view table.now)) warnings.old warnings.new) }
{
    for (name, _value) in table.iter() {
        add_key(warnings, at, known, name)?;
    }
    Ok(())
}

fn add_key(
    warnings: &mut Vec<Warning>,
    at: TableAt,
    known: &[Key],
    name: &String,
) -> Result<(), AllocError>
    ensures { IfOk result (λ _. Adds (unread_key at known.now (string_bytes name.now)) warnings.old warnings.new) }
{
    let it = name.as_str();
    if is_among(known, it) || is_name(at, it) || is_label_of_file(at, it) {
        return Ok(());
    }
    let name = name.clone()?;
    add(warnings, at, Concern::NotRead(name))
}

/// Whether it is the name of a station or of a route, which `explain` reads.
fn is_name(at: TableAt, name: &str) -> bool
    ensures { result ≡ is_name at name.now }
{
    may_have_name(at.spot) && name == "name"
}

fn may_have_name(spot: Option<Spot>) -> bool
    ensures { result ≡ may_have_name spot }
{
    match spot {
        Some(Spot::AtItem(Key::Station, _)) | Some(Spot::AtItem(Key::Route, _)) => true,
        _ => false,
    }
}

/// Whether it is what a file calls its operators, or its currency, which `explain` reads.
fn is_label_of_file(at: TableAt, name: &str) -> bool
    ensures { result ≡ is_label_of_file at name.now }
{
    is_own(at) && (name == "operators" || name == "currency")
}

fn is_own(at: TableAt) -> bool
    ensures { result ≡ is_own at.edition at.spot }
{
    at.edition.is_none() && at.spot.is_none()
}
