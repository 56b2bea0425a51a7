//! The journeys of a day.
ghost use Rattle.std.specs.Prelude.{◌≡◌, IfOk, OnOk};
ghost use Rattle.std.specs.List.{enumerate_from};
ghost use Rattle.std.specs.String.{string_bytes};
ghost use Rattle.serde_json.specs.Written.{compact_text};
ghost use Rattle.pay_explain.specs.Amounts.{clock_text};
ghost use Rattle.pay_page.specs.Journeys.{told_line};
ghost use Rattle.pay_json.specs.Values.{joined};
ghost use Rattle.pay_json.specs.Journeys.{boarding_word, journey_of, journeys_joined, journeys_value, lone_word, rail_word, why_word};

use crate::arrays::{in_brackets, push_comma};
use crate::places::Went;
use crate::strings::Quoted;
use pay_day::Moment;
use pay_explain::{Clock, DayFacts, Line, NamedRoute, Why, line_of};
use pay_names::Names;
use pay_tables::Editions;
use pay_why::{BoardingReason, LoneReason, RailReason};
use std::alloc::{AllocError, Global};
use std::fmt;

/// A journey.
#[derive(Clone, Copy)]
struct JourneyObject<'a> {
    names: &'a Names,
    number: usize,
    line: Line,
    time: &'a str,
    told: &'a str,
}

/// The end of its object: where it went, and why it costs what it costs.
#[derive(Clone, Copy)]
struct JourneyWhy<'a> {
    names: &'a Names,
    line: Line,
    told: &'a str,
}

/// Why a tap stands alone, in a word.
fn lone_word(reason: LoneReason) -> &'static str
    ensures { result.now ≡ lone_word reason }
{
    match reason {
        LoneReason::NoExit => "NoExit",
        LoneReason::LateExit { .. } => "LateExit",
        LoneReason::NoEntry => "NoEntry",
        LoneReason::EarlyEntry { .. } => "EarlyEntry",
    }
}

/// Why a journey by rail costs what it costs, in a word.
fn rail_word(reason: RailReason) -> &'static str
    ensures { result.now ≡ rail_word reason }
{
    match reason {
        RailReason::SingleFare { .. } => "SingleFare",
        RailReason::FreeAtStation { .. } => "FreeAtStation",
        RailReason::SameStation { .. } => "SameStation",
        RailReason::MaximumFare(reason) => lone_word(reason),
    }
}

/// Why a boarding pays or is free, in a word.
fn boarding_word(reason: BoardingReason) -> &'static str
    ensures { result.now ≡ boarding_word reason }
{
    match reason {
        BoardingReason::First => "PaysFirst",
        BoardingReason::PaysAfter(_) => "PaysAfter",
        BoardingReason::FreeAfter(_) => "FreeAfter",
    }
}

/// Why a journey costs what it costs, in a word.
fn why_word(why: &Why) -> &'static str
    ensures { result.now ≡ why_word why.now }
{
    match why {
        Why::Rail(why) => rail_word(why.reason),
        Why::Boarding(why) => boarding_word(why.reason),
    }
}

impl<'a> fmt::Display for JourneyWhy<'a> {
    ghost use Rattle.std.specs.Prelude.{Some, true};
    ghost use Rattle.serde_json.specs.Written.{members_text};
    ghost use Rattle.pay_json.specs.Journeys.{journey_why};

    ghost output = { λ it. Some (members_text true (journey_why it.names.now it.line it.told.now)) };

    #[tactic(auto, unfolding(crate::specs::Journeys::journey_why, json::specs::Print::escape_byte))]
    fn fmt<W: fmt::Write>(&self, f: &mut fmt::Formatter<W>) -> fmt::Result {
        let went = Went {
            names: self.names,
            route: self.line.route,
        };
        let reason = Quoted(why_word(&self.line.why));
        let told = Quoted(self.told);
        write!(
            f,
            ",\"went\":{went},\"reason\":{reason},\"sentence\":{told}}}"
        )
    }
}

impl<'a> fmt::Display for JourneyObject<'a> {
    ghost use Rattle.std.specs.Prelude.{Some};
    ghost use Rattle.serde_json.specs.Data.{object};
    ghost use Rattle.serde_json.specs.Written.{compact_text};
    ghost use Rattle.pay_json.specs.Journeys.{journey_members};

    ghost output = { λ it. Some (compact_text (object (journey_members it.names.now it.number it.line it.time.now it.told.now))) };

    #[tactic(auto, unfolding(crate::specs::Journeys::journey_members, json::specs::Print::escape_byte))]
    fn fmt<W: fmt::Write>(&self, f: &mut fmt::Formatter<W>) -> fmt::Result {
        let number = self.number;
        let fare = self.line.fare.pence();
        let time = Quoted(self.time);
        let utc = self.line.moment.utc();
        let why = JourneyWhy {
            names: self.names,
            line: self.line,
            told: self.told,
        };
        write!(
            f,
            "{{\"number\":{number},\"fare_pence\":{fare},\"time\":{time},\"utc\":{utc}{why}"
        )
    }
}

/// What the clocks showed at a moment.
fn time_of(alloc: Global, moment: Moment) -> Result<String, AllocError>
    ensures { IfOk result (λ text. string_bytes text ≡ clock_text moment.second) }
{
    let clock = Clock(moment);
    let mut text = String::new(alloc);
    write!(text, "{clock}")?;
    Ok(text)
}

/// Where a journey went, and why it costs what it costs.
fn told_line(alloc: Global, names: &Names, line: &Line) -> Result<String, AllocError>
    ensures { IfOk result (λ text. string_bytes text ≡ told_line names.now line.now) }
{
    let route = NamedRoute {
        names,
        route: line.route,
    };
    let why = line.why;
    let mut text = String::new(alloc);
    write!(text, "{route}, {why}")?;
    Ok(text)
}

/// Adds a journey, where it has a line.
#[tactic(auto, using(crate::proofs::Adding::then), unfolding(crate::specs::Values::joined))]
fn push_journey(
    alloc: Global,
    text: &mut String,
    names: &Names,
    number: usize,
    line: &Option<Line>,
) -> Result<(), AllocError>
    ensures { OnOk result (string_bytes text.new ≡ joined (string_bytes text.old) (journey_of names.now number line.now)) }
{
    if let Some(line) = line {
        let time = time_of(alloc, line.moment)?;
        let told = told_line(alloc, names, line)?;
        let journey = JourneyObject {
            names,
            number,
            line: *line,
            time: time.as_str(),
            told: told.as_str(),
        };
        push_comma(text)?;
        write!(text, "{journey}")?;
    }
    Ok(())
}

/// A day's journeys, which are numbered from 1, with commas between them.
fn journeys_joined(
    alloc: Global,
    names: &Names,
    editions: &Editions,
    facts: &DayFacts,
) -> Result<String, AllocError>
    ensures { IfOk result (λ text. string_bytes text ≡ journeys_joined names.now editions.now facts.now.journeys.items facts.now.boardings.items facts.now.list.items) }
{
    let mut text = String::new(alloc);
    for place in 0..facts.list.len() {
        let line = line_of(
            editions,
            &facts.journeys,
            &facts.boardings,
            &facts.list[place],
        );
        push_journey(alloc, &mut text, names, place + 1, &line)?;
    }
    Ok(text)
}

/// The same as an array.
#[tactic(auto, using(crate::proofs::Items::array_is))]
pub fn journeys_array(
    alloc: Global,
    names: &Names,
    editions: &Editions,
    facts: &DayFacts,
) -> Result<String, AllocError>
    ensures { IfOk result (λ text. string_bytes text ≡ compact_text (journeys_value names.now editions.now facts.now.journeys.items facts.now.boardings.items facts.now.list.items)) }
{
    let journeys = journeys_joined(alloc, names, editions, facts)?;
    in_brackets(alloc, journeys.as_str())
}
