//! Fares and caps that look wrong.
ghost use Rattle.std.specs.Prelude.{◌≡◌, IfOk};
ghost use Rattle.toml.specs.View.{table_view};
ghost use Rattle.pay_warnings.specs.Warnings.{Adds, amount, below_said, caps_said, fares_said, prices_said, says_of, week_said, zero_said};

use crate::unread::add;
use crate::warning::{Concern, TableAt, Warning};
use pay_fare_file::{Key, integer_at};
use pay_money::Pence;
use pay_tables::limits::MOST_FARE;
use std::alloc::AllocError;
use toml::Table;

/// Adds what there is to say of the fares and caps in the table at a key, or in one of the array there.
pub fn add_fares(
    warnings: &mut Vec<Warning>,
    at: TableAt,
    key: Key,
    table: &Table,
) -> Result<(), AllocError>
    ensures { IfOk result (λ _. Adds (fares_said at key (table_view table.now)) warnings.old warnings.new) }
{
    match key {
        Key::Rules => add_zero(
            warnings,
            at,
            Concern::FareOfZero,
            amount(table, Key::Bus),
            amount(table, Key::Maximum),
        ),
        Key::Single => add_prices(
            warnings,
            at,
            amount(table, Key::Peak),
            amount(table, Key::Off),
        ),
        Key::Band => add_caps(
            warnings,
            at,
            amount(table, Key::Day),
            amount(table, Key::Week),
        ),
        _ => Ok(()),
    }
}

/// The amount at a key.
fn amount(table: &Table, key: Key) -> u32
    ensures { result ≡ amount key (table_view table.now) }
{
    match integer_at(table, key.name(), 0, MOST_FARE) {
        Ok(amount) => amount,
        Err(_) => 0,
    }
}

fn add_prices(
    warnings: &mut Vec<Warning>,
    at: TableAt,
    peak: u32,
    off: u32,
) -> Result<(), AllocError>
    ensures { IfOk result (λ _. Adds (prices_said at peak off) warnings.old warnings.new) }
{
    add_below(warnings, at, peak, off)?;
    add_zero(warnings, at, Concern::FareOfZero, peak, off)
}

fn add_caps(warnings: &mut Vec<Warning>, at: TableAt, day: u32, week: u32) -> Result<(), AllocError>
    ensures { IfOk result (λ _. Adds (caps_said at day week) warnings.old warnings.new) }
{
    add_week(warnings, at, day, week)?;
    add_zero(warnings, at, Concern::CapOfZero, day, week)
}

/// A peak fare that is below the other is probably exchanged with it.
fn add_below(
    warnings: &mut Vec<Warning>,
    at: TableAt,
    peak: u32,
    off: u32,
) -> Result<(), AllocError>
    ensures { IfOk result (λ _. Adds (below_said at peak off) warnings.old warnings.new) }
{
    if peak >= off {
        return Ok(());
    }
    let peak = Pence::new(u64::from(peak));
    let off = Pence::new(u64::from(off));
    add(warnings, at, Concern::PeakBelowOff(peak, off))
}

/// A cap of the week that is below that of the day probably lacks a digit.
fn add_week(warnings: &mut Vec<Warning>, at: TableAt, day: u32, week: u32) -> Result<(), AllocError>
    ensures { IfOk result (λ _. Adds (week_said at day week) warnings.old warnings.new) }
{
    if week >= day {
        return Ok(());
    }
    let week = Pence::new(u64::from(week));
    let day = Pence::new(u64::from(day));
    add(warnings, at, Concern::WeekBelowDay(week, day))
}

/// What there is to say of an amount of 0, of two.
fn add_zero(
    warnings: &mut Vec<Warning>,
    at: TableAt,
    concern: Concern,
    one: u32,
    other: u32,
) -> Result<(), AllocError>
    ensures { IfOk result (λ _. Adds (zero_said (says_of at concern) one other) warnings.old warnings.new) }
{
    if one != 0 && other != 0 {
        return Ok(());
    }
    add(warnings, at, concern)
}
