//! What there is to say of a fare file that is read.
ghost use Rattle.std.specs.Prelude.{◌≡◌, ◌≢◌, ◌∷◌, [], IfOk, IfErr, IsOk, None, Err};
ghost use Rattle.toml.specs.Data.{as_table};
ghost use Rattle.toml.specs.View.{view, items_view, table_view};
ghost use Rattle.pay_day.specs.declared.limits.TheConstants.{LAST_DAY};
ghost use Rattle.pay_fare_file.specs.Keys.{integer_of};
ghost use Rattle.pay_fare_file.specs.FareFile.{fare_text};
ghost use Rattle.pay_warnings.specs.Warnings.{Adds, all_said, day_of, edition_day, edition_said, edition_said_on, editions_said, file_said, has_later, holidays_said, in_table, last_day, none_later_said, or_zero, own_said, says_of, text_said, whole};

use crate::read_keys::{file_keys, keys_in};
use crate::said_tables::{add_array, add_shared, items_in, whole};
use crate::unread::{add, add_unread};
use crate::warning::{Concern, Warning};
use pay_day::limits::LAST_DAY;
use pay_editions::check_file;
use pay_fare_file::{FareFileFault, Key, integer, integer_at};
use std::alloc::{AllocError, Global};
use toml::{Table, Value};

/// What there is to say of the text of a fare file: first of its own keys, then of each of its editions, then of
/// its holidays. A file that is refused is refused here too, by the same fault.
pub fn warnings(alloc: Global, text: &str) -> Result<Vec<Warning>, FareFileFault>
    ensures ok { IfOk result (λ warnings. IsOk (fare_text text.now) × (all_said warnings ≡ text_said text.now)) }
    ensures refused { IfErr result (λ fault. fault ≢ FareFileFault.Memory → fare_text text.now ≡ Err fault) }
{
    let file = toml::table_from_str(alloc, text)?;
    check_file(alloc, &file)?;
    let mut warnings = Vec::new(alloc);
    add_file(&mut warnings, &file)?;
    Ok(warnings)
}

/// Adds what there is to say of a file.
fn add_file(warnings: &mut Vec<Warning>, file: &Table) -> Result<(), AllocError>
    ensures { IfOk result (λ _. Adds (file_said (table_view file.now)) warnings.old warnings.new) }
{
    let editions = items_in(file, Key::Edition);
    add_own(warnings, file)?;
    add_editions(warnings, editions)?;
    add_holidays(warnings, last_day(editions), items_in(file, Key::Holidays))
}

/// Of its own keys.
fn add_own(warnings: &mut Vec<Warning>, file: &Table) -> Result<(), AllocError>
    ensures { IfOk result (λ _. Adds (own_said (table_view file.now)) warnings.old warnings.new) }
{
    add_unread(warnings, whole(None), file_keys(), file)?;
    add_shared(warnings, None, file)?;
    add_array(warnings, None, Key::Station, file)?;
    add_array(warnings, None, Key::Route, file)?;
    add_array(warnings, None, Key::Interchange, file)
}

/// Of each of its editions.
fn add_editions(warnings: &mut Vec<Warning>, editions: &[Value]) -> Result<(), AllocError>
    ensures { IfOk result (λ _. Adds (editions_said (items_view editions.now)) warnings.old warnings.new) }
{
    for edition in editions {
        add_edition(warnings, edition)?;
    }
    Ok(())
}

fn add_edition(warnings: &mut Vec<Warning>, edition: &Value) -> Result<(), AllocError>
    ensures { IfOk result (λ _. Adds (in_table edition_said (as_table (view edition.now))) warnings.old warnings.new) }
{
    match edition.as_table() {
        Some(table) => add_edition_on(warnings, edition_day(table), table),
        None => Ok(()),
    }
}

fn add_edition_on(warnings: &mut Vec<Warning>, day: u32, edition: &Table) -> Result<(), AllocError>
    ensures { IfOk result (λ _. Adds (edition_said_on day (table_view edition.now)) warnings.old warnings.new) }
{
    add_unread(warnings, whole(Some(day)), keys_in(Key::Edition), edition)?;
    add_shared(warnings, Some(day), edition)
}

/// The day on which an edition begins.
fn edition_day(edition: &Table) -> u32
    ensures { result ≡ edition_day (table_view edition.now) }
{
    match integer_at(edition, "day", 0, LAST_DAY) {
        Ok(day) => day,
        Err(_) => 0,
    }
}

/// The day on which the last of some editions begins, and 0 where there are none.
fn last_day(editions: &[Value]) -> u32
    ensures { result ≡ last_day 0 (items_view editions.now) }
{
    let mut last = 0;
    for edition in editions {
        last = last.max(day_of(edition));
    }
    last
}

fn day_of(edition: &Value) -> u32
    ensures { result ≡ day_of (as_table (view edition.now)) }
{
    match edition.as_table() {
        Some(table) => edition_day(table),
        None => 0,
    }
}

/// That no holiday comes after the day on which the last edition begins: the file may be of an earlier year.
fn add_holidays(
    warnings: &mut Vec<Warning>,
    last: u32,
    holidays: &[Value],
) -> Result<(), AllocError>
    ensures { IfOk result (λ _. Adds (holidays_said last (items_view holidays.now)) warnings.old warnings.new) }
{
    if has_later(last, holidays) {
        return Ok(());
    }
    add(warnings, whole(None), none_later(last))
}

/// What there is to say where none does.
fn none_later(last: u32) -> Concern
    ensures { says_of (whole None) result ∷ [] ≡ none_later_said last }
{
    if last == 0 {
        return Concern::NoHolidays;
    }
    Concern::NoHolidayAfter(last)
}

/// Whether a holiday comes after a day.
fn has_later(last: u32, holidays: &[Value]) -> bool
    ensures { result ≡ has_later last (items_view holidays.now) }
{
    for holiday in holidays {
        if last < holiday_of(holiday) {
            return true;
        }
    }
    false
}

fn holiday_of(holiday: &Value) -> u32
    ensures { result ≡ or_zero (integer_of 0 LAST_DAY (view holiday.now)) }
{
    match integer(holiday, 0, LAST_DAY) {
        Ok(day) => day,
        Err(_) => 0,
    }
}
