//! The rules of the fare file.
ghost use Rattle.std.specs.Prelude.{◌≡◌, ◌≤◌, IfOk};
ghost use Rattle.toml.specs.View.{table_view};
ghost use Rattle.pay_tables.specs.declared.limits.TheConstants.{MOST_HOPPER_SECONDS};
ghost use Rattle.pay_tables.specs.Words.{AreRules};
ghost use Rattle.pay_fare_file.specs.FareFile.{hopper_at};
ghost use Rattle.pay_fare_file.specs.FaultPlaces.{rules_told, rules_at_told};

use crate::fault::FareFileFault;
use crate::key::Key;
use crate::keys::{integer_at, integer_told, pence_told, table_told};
use crate::misread::{Misread, told};
use crate::spot::Spot;
use pay_tables::Rules;
use pay_tables::limits::{MOST_HOPPER_SECONDS, MOST_SAME_SECONDS};
use toml::Table;

/// The Hopper time of a table of rules. That of an edition has to be that of the file's own rules.
fn hopper_at(table: &Table, own: Option<u32>) -> Result<u32, FareFileFault>
    ensures value { result ≡ hopper_at own (table_view table.now) }
    ensures in_range { IfOk result (λ hopper. (1 ≤ hopper) × (hopper ≤ MOST_HOPPER_SECONDS)) }
{
    let hopper = integer_at(table, "hopper", 1, MOST_HOPPER_SECONDS)?;
    match own {
        Some(own) if hopper != own => Err(FareFileFault::HopperDiffers),
        _ => Ok(hopper),
    }
}

/// The rules of a fare file, or of an edition: then `own` is the Hopper time of the file's own rules.
pub fn rules_at_told(file: &Table, own: Option<u32>) -> Result<Rules, Misread<Spot>>
    ensures value { result ≡ rules_at_told own (table_view file.now) }
    ensures in_range { IfOk result AreRules }
{
    let table = table_told(file, Spot::AtKey(Key::Rules))?;
    rules_told(table, own)
}

/// The rules that a table has, or its first fault.
fn rules_told(table: &Table, own: Option<u32>) -> Result<Rules, Misread<Spot>>
    ensures value { result ≡ rules_told own (table_view table.now) }
    ensures in_range { IfOk result AreRules }
{
    let bus = pence_told(table, Spot::InRules(Key::Bus))?;
    let maximum = pence_told(table, Spot::InRules(Key::Maximum))?;
    let hopper = told(Spot::InRules(Key::Hopper), hopper_at(table, own))?;
    let same_free = integer_told(table, Spot::InRules(Key::SameFree), 0, MOST_SAME_SECONDS)?;
    let same_limit = integer_told(
        table,
        Spot::InRules(Key::SameLimit),
        same_free,
        MOST_SAME_SECONDS,
    )?;
    Ok(Rules {
        bus,
        maximum,
        hopper,
        same_free,
        same_limit,
    })
}
