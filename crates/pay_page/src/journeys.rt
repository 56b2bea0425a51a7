//! The journeys of a day, as a table.
ghost use Rattle.std.specs.Prelude.{◌≡◌, ◌++◌, IfOk, OnOk};
ghost use Rattle.std.specs.List.{flat_map, enumerate_from};
ghost use Rattle.std.specs.String.{string_bytes};
ghost use Rattle.pay_page.specs.Journeys.{journey_row, journey_rows, row_of, told_line};

use pay_explain::{Clock, DayFacts, Line, NamedRoute, Pounds, line_of};
use pay_html::Escaped;
use pay_names::Names;
use pay_tables::Editions;
use std::alloc::{AllocError, Global};
use std::fmt;

/// The head of the table of a day's journeys.
#[derive(Clone, Copy)]
pub struct JourneysStart;

/// The row of a journey.
#[derive(Clone, Copy)]
struct JourneyRow<'a> {
    number: usize,
    line: Line,
    told: &'a str,
}

impl fmt::Display for JourneysStart {
    ghost use Rattle.std.specs.Prelude.{Some};
    ghost use Rattle.pay_page.specs.Journeys.{journeys_start};

    ghost output = { λ _. Some journeys_start };

    #[tactic(auto, unfolding(crate::specs::Journeys::journeys_start))]
    fn fmt<W: fmt::Write>(&self, f: &mut fmt::Formatter<W>) -> fmt::Result {
        f.write_str(
            "<table>\n<caption>The journeys of the day, and why each costs what it costs</caption>\n<thead>\n\
<tr><th scope=\"col\">No.</th><th scope=\"col\">Amount</th><th scope=\"col\">Time</th><th scope=\"col\">What</th></tr>\n\
</thead>\n<tbody>\n",
        )
    }
}

impl<'a> fmt::Display for JourneyRow<'a> {
    ghost use Rattle.std.specs.Prelude.{Some};
    ghost use Rattle.pay_page.specs.Journeys.{journey_row};

    ghost output = { λ it. Some (journey_row it.number it.line it.told.now) };

    #[tactic(auto, unfolding(crate::specs::Journeys::journey_row))]
    fn fmt<W: fmt::Write>(&self, f: &mut fmt::Formatter<W>) -> fmt::Result {
        let number = self.number;
        let amount = Pounds(self.line.fare);
        let clock = Clock(self.line.moment);
        let told = Escaped(self.told);
        write!(
            f,
            "<tr id=\"journey-{number}\"><th scope=\"row\">{number}</th>\
<td class=\"amount\">{amount}</td><td>{clock}</td><td>{told}</td></tr>\n"
        )
    }
}

/// Where a journey went, and why it costs what it costs.
fn told_line(alloc: Global, names: &Names, line: &Line) -> Result<String, AllocError>
    ensures { IfOk result (λ text. string_bytes text ≡ told_line names.now line.now) }
{
    let route = NamedRoute {
        names,
        route: line.route,
    };
    let why = line.why;
    let mut text = String::new(alloc);
    write!(text, "{route}, {why}")?;
    Ok(text)
}

/// Adds the row of a journey, where it has a line.
fn push_row(
    alloc: Global,
    text: &mut String,
    names: &Names,
    number: usize,
    line: &Option<Line>,
) -> Result<(), AllocError>
    ensures { OnOk result (string_bytes text.new ≡ string_bytes text.old ++ row_of names.now number line.now) }
{
    if let Some(line) = line {
        let told = told_line(alloc, names, line)?;
        let row = JourneyRow {
            number,
            line: *line,
            told: told.as_str(),
        };
        write!(text, "{row}")?;
    }
    Ok(())
}

/// Adds the rows of a day's journeys, which are numbered from 1.
pub fn push_rows(
    alloc: Global,
    text: &mut String,
    names: &Names,
    editions: &Editions,
    facts: &DayFacts,
) -> Result<(), AllocError>
    ensures { OnOk result (string_bytes text.new ≡ string_bytes text.old ++ journey_rows names.now editions.now facts.now.journeys.items facts.now.boardings.items facts.now.list.items) }
{
    for place in 0..facts.list.len() {
        let line = line_of(
            editions,
            &facts.journeys,
            &facts.boardings,
            &facts.list[place],
        );
        push_row(alloc, text, names, place + 1, &line)?;
    }
    Ok(())
}
