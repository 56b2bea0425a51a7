ghost use Rattle.std.specs.Prelude.{◌≡◌, ◌≤◌, length, map, IfOk};
ghost use Rattle.std.specs.List.{range_with_len, zip};
ghost use Rattle.pay_day.specs.Words.{IsDay, monday, sunday};
ghost use Rattle.pay_day.specs.declared.limits.TheConstants.{DAYS_PER_WEEK};
ghost use Rattle.pay_tables.specs.Words.{on};
ghost use Rattle.pay_rules.specs.declared.limits.TheConstants.{MOST_TOUCHES};
ghost use Rattle.pay_rules.specs.Order.{in_order_by};
ghost use Rattle.pay_rules.specs.RailJourneys.{first_tap};
ghost use Rattle.pay_rules.specs.DayPrices.{capped_price};
ghost use Rattle.pay_week.specs.Words.{capped_price_of};
ghost use Rattle.pay_rules.specs.Prices.{days_through, journeys_on};
ghost use Rattle.pay_rules.specs.Lines.{lines_of_week};
ghost use Rattle.pay_account.specs.WeekBands.{band_on, line_by_bands};

use crate::journeys::day_of;
use crate::lines::{line_of_journey, sort_by_first_tap};
use crate::quoting::keep_days;
use crate::week_cells::{Week, cells_of_days};
use pay_day::limits::DAYS_PER_WEEK;
use pay_day::monday;
use pay_rules::{Journey, Line, Lines};
use pay_tables::{Editions, Tables};
use pay_week::{Cells, day_price};
use std::alloc::{AllocError, Global};

/// The bands that give the prices of the days of a week, from Monday through Sunday, where one does.
type Bands = [Option<u8>; DAYS_PER_WEEK as usize];

/// The band that gives the price of a day, by the sums of its fares.
fn band_of(tables: &Tables, cells: &Cells) -> Option<u8>
    ensures { result ≡ (capped_price_of tables.now cells.now).1 }
{
    day_price(tables, cells).1
}

/// The bands that give the prices of the days of a week, by the sums of their fares.
fn bands_of(editions: &Editions, week: &Week, monday: u32) -> Bands
    requires { IsDay monday }
    ensures { result ≡ map (λ one. (capped_price_of (on editions.now one.0) one.1).1) (zip (range_with_len monday DAYS_PER_WEEK) week.now) }
{
    let mut bands = [None; DAYS_PER_WEEK as usize];
    for place in 0..DAYS_PER_WEEK as usize {
        let tables = editions.on(monday + place as u32);
        bands[place] = band_of(tables, &week[place]);
    }
    bands
}

/// The bands that give the prices of the days of a day's week, by all journeys.
fn bands_of_week(editions: &Editions, journeys: &[Journey], day: u32) -> Bands
    requires few { length journeys.now ≤ MOST_TOUCHES }
    requires is_day { IsDay day }
    ensures { result ≡ map (λ each. (capped_price (on editions.now each) (journeys_on journeys.now each)).1) (days_through (sunday day)) }
{
    pay_week::day_laws::day_prices(editions);
    bands_of(
        editions,
        &cells_of_days(editions, journeys, day),
        monday(day),
    )
}

/// The band of a day, of those of the days of its week.
fn band_on(bands: &Bands, monday: u32, day: u32) -> Option<u8>
    ensures { result ≡ band_on bands.now monday day }
{
    if monday <= day && day - monday < DAYS_PER_WEEK {
        bands[(day - monday) as usize]
    } else {
        None
    }
}

/// A journey as a line, by the edition and the band of its own day.
fn line_by_bands(editions: &Editions, bands: &Bands, monday: u32, journey: &Journey) -> Line
    ensures { result ≡ line_by_bands editions.now bands.now monday journey.now }
{
    let day = day_of(journey);
    let band = band_on(bands, monday, day);
    line_of_journey(editions.on(day), band, journey)
}

/// Each journey as a line, by the band of its own day.
fn lines_by_bands(
    alloc: Global,
    editions: &Editions,
    bands: &Bands,
    monday: u32,
    list: &[Journey],
) -> Result<Vec<Line>, AllocError>
    ensures { IfOk result (λ lines. lines.items ≡ map (line_by_bands editions.now bands.now monday) list.now) }
{
    list.iter()
        .map(|journey| line_by_bands(editions, bands, monday, journey))
        .collect(alloc)
}

/// The same, in the order of their first taps.
fn lines_in_order(
    alloc: Global,
    editions: &Editions,
    bands: &Bands,
    monday: u32,
    mut list: Vec<Journey>,
) -> Result<Lines, AllocError>
    ensures { IfOk result (λ lines. lines ≡ map (line_by_bands editions.now bands.now monday) (in_order_by first_tap list.items)) }
{
    sort_by_first_tap(&mut list)?;
    let lines = lines_by_bands(alloc, editions, bands, monday, &list)?;
    Ok(Lines::from(lines))
}

/// The journeys of a week as lines, in the order of their first taps, rail and bus together, each with the
/// band that gives the price of its own day. The days of the week are told by its Monday.
pub fn lines_of_week(
    alloc: Global,
    editions: &Editions,
    mut list: Vec<Journey>,
    week: u32,
) -> Result<Lines, AllocError>
    requires few { length list.items ≤ MOST_TOUCHES }
    requires is_day { IsDay week }
    requires is_monday { monday week ≡ week }
    ensures { IfOk result (λ lines. lines ≡ lines_of_week editions.now list.items week) }
{
    let bands = bands_of_week(editions, &list, week);
    keep_days(&mut list, week, week + (DAYS_PER_WEEK - 1));
    lines_in_order(alloc, editions, &bands, week, list)
}
