//! A journey of a day as a line.
ghost use Rattle.std.specs.Prelude.{◌≡◌};
ghost use Rattle.pay_explain.specs.Lines.{rail_line, boarding_line, line_of};

use crate::amounts::{Clock, Head};
use crate::routes::{NamedRoute, Route, route_of};
use crate::sentences::{BoardingWhy, RailWhy};
use pay_day::Moment;
use pay_money::Pence;
use pay_names::Names;
use pay_rules::{Journey, Touch};
use pay_tables::Editions;
use pay_why::{ListedJourney, Mode, boarding_reason, rail_reason_at};
use std::fmt;

/// Why a journey costs what it costs.
#[derive(Clone, Copy)]
pub enum Why {
    /// A journey by rail.
    Rail(RailWhy),
    /// A boarding.
    Boarding(BoardingWhy),
}

/// A journey of a line.
#[derive(Clone, Copy)]
pub struct Line {
    /// What it costs by itself, before any cap.
    pub fare: Pence,
    /// The moment of its first tap.
    pub moment: Moment,
    /// Where it went.
    pub route: Route,
    /// Why it costs that.
    pub why: Why,
}

impl fmt::Display for Why {
    ghost use Rattle.std.specs.Prelude.{Some};
    ghost use Rattle.pay_explain.specs.Lines.{why_text};

    ghost output = { λ why. Some (why_text why) };

    fn fmt<W: fmt::Write>(&self, f: &mut fmt::Formatter<W>) -> fmt::Result {
        match self {
            Why::Rail(why) => write!(f, "{why}"),
            Why::Boarding(why) => write!(f, "{why}"),
        }
    }
}

/// A journey as a line: `   3.40  09:10:00 rail Abbey (10) to 12, zones 1 to 2, peak (morning)`.
#[derive(Clone, Copy)]
pub struct NamedLine<'a> {
    /// The names of places.
    pub names: &'a Names,
    /// The journey.
    pub line: Line,
}

impl<'a> fmt::Display for NamedLine<'a> {
    ghost use Rattle.std.specs.Prelude.{Some};
    ghost use Rattle.pay_explain.specs.Lines.{line_text};

    ghost output = { λ it. Some (line_text it.names.now it.line) };

    fn fmt<W: fmt::Write>(&self, f: &mut fmt::Formatter<W>) -> fmt::Result {
        let fare = Head(self.line.fare);
        let clock = Clock(self.line.moment);
        let route = NamedRoute {
            names: self.names,
            route: self.line.route,
        };
        let why = self.line.why;
        write!(f, "{fare}{clock} {route}, {why}")
    }
}

/// The line of a journey by rail, or none if none stands at its place.
fn rail_line(editions: &Editions, journeys: &[Journey], listed: &ListedJourney) -> Option<Line>
    ensures { result ≡ rail_line editions.now journeys.now listed.now }
{
    let journey = journeys.get(listed.place)?;
    let reason = rail_reason_at(editions, journeys, listed.place)?;
    let moment = listed.tap.stamp;
    Some(Line {
        fare: listed.fare,
        moment,
        route: route_of(journey),
        why: Why::Rail(RailWhy {
            reason,
            day: moment.day(),
        }),
    })
}

/// The line of a boarding, or none if none stands at its place.
fn boarding_line(editions: &Editions, boardings: &[Touch], listed: &ListedJourney) -> Option<Line>
    ensures { result ≡ boarding_line editions.now boardings.now listed.now }
{
    let tables = editions.own();
    let reason = boarding_reason(tables, boardings, listed.place)?;
    let moment = listed.tap.stamp;
    Some(Line {
        fare: listed.fare,
        moment,
        route: Route::Bus(listed.tap.place),
        why: Why::Boarding(BoardingWhy {
            reason,
            day: moment.day(),
            hopper: tables.rules().hopper,
        }),
    })
}

/// The line of a journey that a day lists, with its reason: none if none stands at its place among all
/// journeys by rail of the account, or among all its boardings.
pub fn line_of(
    editions: &Editions,
    journeys: &[Journey],
    boardings: &[Touch],
    listed: &ListedJourney,
) -> Option<Line>
    ensures { result ≡ line_of editions.now journeys.now boardings.now listed.now }
{
    match listed.mode {
        Mode::Rail => rail_line(editions, journeys, listed),
        Mode::Bus => boarding_line(editions, boardings, listed),
    }
}
