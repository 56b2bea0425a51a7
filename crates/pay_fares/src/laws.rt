//! What is true of peak times, spans and fares themselves.

ghost use Rattle.std.specs.Prelude.{◌≡◌, ℕ, ◌+◌, ◌≤◌, nat_lt, true, false};
ghost use Rattle.pay_day.specs.Words.{monday};
ghost use Rattle.pay_day.specs.declared.limits.TheConstants.{FIRST_DAY, SATURDAY};
ghost use Rattle.pay_tables.specs.declared.limits.TheConstants.{MOST_FARE};
ghost use Rattle.pay_tables.specs.Words.{FareTables, IsSpan, on};
ghost use Rattle.pay_rules.specs.declared.journey.Journey.{Journey};
ghost use Rattle.pay_rules.specs.LinkedLegs.{LinkedLegs};
ghost use Rattle.pay_rules.specs.JourneyFares.{fare};
ghost use Rattle.pay_rules.specs.Runs.{first_station, last_station, span_of_legs, span_of_station};
ghost use Rattle.pay_rules.specs.Peak.{is_weekday, is_into_zone_one};

use pay_tables::Editions;

/// Monday to Friday are the first five days of a week, which begins with its Monday.
pub fn weekdays()
    ensures { (day : ℕ) → FIRST_DAY ≤ day → is_weekday day ≡ nat_lt day (monday day + SATURDAY) }
{}

/// The evening exception is for one way alone: a run that begins where one into zone 1 ended does not
/// go into zone 1 itself.
pub fn one_way()
    ensures { (tables : FareTables) → (there back : LinkedLegs) → is_into_zone_one tables there ≡ true →
        first_station tables back ≡ last_station tables there → is_into_zone_one tables back ≡ false }
{}

/// The span of a run of legs lies within the zones of the fare file, and so does that of a station, by the
/// tables of each day.
pub fn spans_within(editions: &Editions)
    ensures run { (day : ℕ) (legs : LinkedLegs) → IsSpan (on editions.now day).zones (span_of_legs (on editions.now day) legs) }
    ensures station { (day place : ℕ) → IsSpan (on editions.now day).zones (span_of_station (on editions.now day) place) }
{
    pay_tables::laws::each_day(editions);
    pay_tables::laws::spans_within();
}

/// No journey costs more than the largest fare, by the tables of each day.
pub fn fares_within(editions: &Editions)
    ensures { (day : ℕ) (journey : Journey) → fare (on editions.now day) journey ≤ MOST_FARE }
{
    pay_tables::laws::each_day(editions);
}
