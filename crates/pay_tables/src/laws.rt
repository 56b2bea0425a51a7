//! What is true of the tables of every fare file. Each law is the contract of a function that changes
//! nothing: a caller whose proof needs a law calls its function.
ghost use Rattle.std.specs.Prelude.{◌≤◌, ℕ, Bool, List, All, length};
ghost use Rattle.pay_day.specs.Words.{IsDay};
ghost use Rattle.pay_day.specs.declared.limits.TheConstants.{FIRST_DAY};
ghost use Rattle.pay_tables.specs.declared.limits.TheConstants.{MOST_FARE, MOST_ZONES};
ghost use Rattle.pay_tables.specs.declared.place.Place.{Place};
ghost use Rattle.pay_tables.specs.declared.zones.Span.{Span};
ghost use Rattle.pay_tables.specs.FareEditions.{AreOfOneFile, first_day, on};
ghost use Rattle.pay_tables.specs.FareTables.{AreRules, IsFareTables, IsPlace, station_at, single_fare};
ghost use Rattle.pay_tables.specs.Spans.{IsSpan, span_of};

use crate::editions::Editions;
use crate::tables::Tables;

/// Each number of tables is in its range, and each span within the zones has a single fare.
pub fn in_range(tables: &Tables)
    ensures { IsFareTables tables.now }
{
    tables.in_range();
}

/// The station at any number lies within the zones.
pub fn stations_within(tables: &Tables)
    ensures { (number : ℕ) → IsPlace tables.now.zones (station_at tables.now number) }
{
    tables.in_range();
}

/// The span of stations within the zones lies within them.
pub fn spans_within()
    ensures { (zones : ℕ) (stations : List Place) → 1 ≤ length stations → All (IsPlace zones) stations
        → IsSpan zones (span_of stations) }
{}

/// The tables of each day are in their ranges: their stations lie within the zones, and no fare is above the
/// largest one.
pub fn each_day(editions: &Editions)
    ensures zones { (day : ℕ) → (on editions.now day).zones ≤ MOST_ZONES }
    ensures rules { (day : ℕ) → AreRules (on editions.now day).rules }
    ensures stations { (day number : ℕ) → IsPlace (on editions.now day).zones (station_at (on editions.now day) number) }
    ensures fares { (day : ℕ) (span : Span) (peak : Bool) → single_fare (on editions.now day) span peak ≤ MOST_FARE }
{
    editions.of_one_file();
}

/// The tables of each day share what all editions of a file share.
pub fn editions_share(editions: &Editions)
    ensures { (day : ℕ) → AreOfOneFile editions.now.own (on editions.now day) }
{
    editions.of_one_file();
}

/// The edition of a day is that which began last: no other began between its first day, which is a service day, and that day.
pub fn last_begun(editions: &Editions)
    ensures in_range { (day : ℕ) → IsDay (first_day editions.now day) }
    ensures by_then { (day : ℕ) → FIRST_DAY ≤ day → first_day editions.now day ≤ day }
    ensures none_between { (day : ℕ) → All (λ edition. edition.day ≤ day → edition.day ≤ first_day editions.now day) editions.now.items }
{
    editions.of_one_file();
}
