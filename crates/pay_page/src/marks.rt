//! The marks of journeys on the line of a day.
ghost use Rattle.std.specs.Prelude.{◌≡◌, ◌≤◌, ◌++◌, OnOk};
ghost use Rattle.std.specs.List.{flat_map, enumerate_from};
ghost use Rattle.std.specs.String.{string_bytes};
ghost use Rattle.pay_page.specs.Marks.{across, across_on, bar, bars, class_of, mark_of, marks, number_height, rail_shape, shape_of, width_of};

use pay_day::Moment;
use pay_day::limits::{SECONDS_PER_DAY, SERVICE_DAY_START};
use pay_explain::DayFacts;
use pay_money::Pence;
use pay_rules::{Journey, Leg, Run};
use pay_why::{ListedJourney, Mode};
use std::alloc::AllocError;
use std::fmt;

/// Where the line of a day begins, and where it ends. It reaches from 04:30 to 04:30.
pub const LEFT: u32 = 60;

pub const RIGHT: u32 = 1_020;

/// How many seconds a unit of the line has.
pub const SECONDS_PER_UNIT: u32 = 90;

/// The least width of a bar.
pub const LEAST_WIDTH: u32 = 6;

/// The number of a journey above its mark, odd ones nearer to it than even ones.
#[derive(Clone, Copy)]
struct Number {
    number: usize,
    moment: Moment,
    mode: Mode,
}

/// The square of a boarding.
#[derive(Clone, Copy)]
struct Square {
    moment: Moment,
    fare: Pence,
}

/// The bar of a leg.
#[derive(Clone, Copy)]
struct Bar {
    day: u32,
    fare: Pence,
    leg: Leg,
}

/// The line that joins the legs of a journey.
#[derive(Clone, Copy)]
struct Join {
    day: u32,
    from: Moment,
    to: Moment,
}

/// The diamond of a rail tap that stands alone.
#[derive(Clone, Copy)]
struct Diamond(Moment);

/// Where a moment stands on the line of its day.
fn across(moment: Moment) -> u32
    ensures value { result ≡ across moment.second }
    ensures in_range { result ≤ RIGHT }
{
    let since = (moment.second() + (SECONDS_PER_DAY - SERVICE_DAY_START)) % SECONDS_PER_DAY;
    LEFT + since / SECONDS_PER_UNIT
}

/// Where a moment stands on the line of a day that it is not before: if it is of a later one, at the end.
#[tactic(auto, unfolding(crate::specs::Marks::across_on))]
fn across_on(day: u32, moment: Moment) -> u32
    ensures value { result ≡ across_on day moment }
    ensures in_range { result ≤ RIGHT }
{
    if moment.day() == day {
        across(moment)
    } else {
        RIGHT
    }
}

/// The class of a mark, by what the journey costs.
fn class_of(fare: Pence) -> &'static str
    ensures { result.now ≡ class_of fare }
{
    if fare.pence() == 0 { "free" } else { "paid" }
}

/// How wide the bar of a leg is, so that a short one can be seen. Where clocks are set back, one may end before it began.
#[tactic(auto, unfolding(crate::specs::Marks::width_of))]
fn width_of(from: u32, to: u32) -> u32
    ensures { result ≡ width_of from to }
{
    let width = to.saturating_sub(from);
    if width < LEAST_WIDTH {
        LEAST_WIDTH
    } else {
        width
    }
}

/// How far below the top a number stands.
fn number_height(number: usize, mode: Mode) -> u32
    ensures { result ≡ number_height number mode }
{
    match (mode, number % 2 == 0) {
        (Mode::Bus, true) => 24,
        (Mode::Bus, false) => 36,
        (Mode::Rail, true) => 76,
        (Mode::Rail, false) => 88,
    }
}

impl fmt::Display for Number {
    ghost use Rattle.std.specs.Prelude.{Some};
    ghost use Rattle.pay_page.specs.Marks.{number_mark};

    ghost output = { λ it. Some (number_mark it.number it.moment it.mode) };

    #[tactic(auto, unfolding(crate::specs::Marks::number_mark))]
    fn fmt<W: fmt::Write>(&self, f: &mut fmt::Formatter<W>) -> fmt::Result {
        let number = self.number;
        let x = across(self.moment);
        let y = number_height(number, self.mode);
        write!(f, "<text x=\"{x}\" y=\"{y}\">{number}</text>\n")
    }
}

impl fmt::Display for Square {
    ghost use Rattle.std.specs.Prelude.{Some};
    ghost use Rattle.pay_page.specs.Marks.{square};

    ghost output = { λ it. Some (square it.moment it.fare) };

    #[tactic(auto, unfolding(crate::specs::Marks::square))]
    fn fmt<W: fmt::Write>(&self, f: &mut fmt::Formatter<W>) -> fmt::Result {
        let class = class_of(self.fare);
        let x = across(self.moment);
        write!(
            f,
            "<rect class=\"{class}\" x=\"{x}\" y=\"44\" width=\"8\" height=\"16\"/>\n"
        )
    }
}

impl fmt::Display for Bar {
    ghost use Rattle.std.specs.Prelude.{Some};
    ghost use Rattle.pay_page.specs.Marks.{bar};

    ghost output = { λ it. Some (bar it.day it.fare it.leg) };

    #[tactic(auto, unfolding(crate::specs::Marks::bar))]
    fn fmt<W: fmt::Write>(&self, f: &mut fmt::Formatter<W>) -> fmt::Result {
        let class = class_of(self.fare);
        let from = across_on(self.day, self.leg.entry.stamp);
        let to = across_on(self.day, self.leg.exit.stamp);
        let width = width_of(from, to);
        write!(
            f,
            "<rect class=\"{class}\" x=\"{from}\" y=\"96\" width=\"{width}\" height=\"12\"/>\n"
        )
    }
}

impl fmt::Display for Join {
    ghost use Rattle.std.specs.Prelude.{Some};
    ghost use Rattle.pay_page.specs.Marks.{join};

    ghost output = { λ it. Some (join it.day it.from it.to) };

    #[tactic(auto, unfolding(crate::specs::Marks::join))]
    fn fmt<W: fmt::Write>(&self, f: &mut fmt::Formatter<W>) -> fmt::Result {
        let from = across_on(self.day, self.from);
        let to = across_on(self.day, self.to);
        write!(
            f,
            "<line class=\"join\" x1=\"{from}\" y1=\"102\" x2=\"{to}\" y2=\"102\"/>\n"
        )
    }
}

impl fmt::Display for Diamond {
    ghost use Rattle.std.specs.Prelude.{Some};
    ghost use Rattle.pay_page.specs.Marks.{diamond};

    ghost output = { λ it. Some (diamond it.0) };

    #[tactic(auto, unfolding(crate::specs::Marks::diamond))]
    fn fmt<W: fmt::Write>(&self, f: &mut fmt::Formatter<W>) -> fmt::Result {
        let x = across(self.0);
        write!(f, "<path class=\"lone\" d=\"M{x} 94l8 8-8 8-8-8z\"/>\n")
    }
}

/// Adds the bar of a leg.
fn push_bar(text: &mut String, day: u32, fare: Pence, leg: &Leg) -> Result<(), AllocError>
    ensures { OnOk result (string_bytes text.new ≡ string_bytes text.old ++ bar day fare leg.now) }
{
    let bar = Bar {
        day,
        fare,
        leg: *leg,
    };
    write!(text, "{bar}")?;
    Ok(())
}

/// Adds a bar for each leg.
fn push_bars(text: &mut String, day: u32, fare: Pence, legs: &[Leg]) -> Result<(), AllocError>
    ensures { OnOk result (string_bytes text.new ≡ string_bytes text.old ++ flat_map (bar day fare) legs.now) }
{
    for leg in legs {
        push_bar(text, day, fare, leg)?;
    }
    Ok(())
}

/// Adds the line and the bars of a run of legs.
#[tactic(auto, using(crate::proofs::Adding::then_third))]
fn push_run(text: &mut String, day: u32, fare: Pence, run: &Run) -> Result<(), AllocError>
    ensures { OnOk result (string_bytes text.new ≡ string_bytes text.old ++ bars day fare run.now) }
{
    let join = Join {
        day,
        from: run.first().entry.stamp,
        to: run.last().exit.stamp,
    };
    write!(text, "{join}")?;
    push_bar(text, day, fare, run.first())?;
    push_bars(text, day, fare, run.others())?;
    Ok(())
}

/// Adds the shape of a journey by rail of a day.
fn push_rail_shape(
    text: &mut String,
    day: u32,
    fare: Pence,
    journey: &Journey,
) -> Result<(), AllocError>
    ensures { OnOk result (string_bytes text.new ≡ string_bytes text.old ++ rail_shape day fare journey.now) }
{
    match journey {
        Journey::Run(run) => push_run(text, day, fare, run)?,
        Journey::Same(leg) => push_bar(text, day, fare, leg)?,
        Journey::Lone(tap) => {
            let diamond = Diamond(tap.stamp);
            write!(text, "{diamond}")?;
        }
        Journey::Bus { .. } => {}
    }
    Ok(())
}

/// Adds the shape of a journey that a day lists.
fn push_shape(
    text: &mut String,
    journeys: &[Journey],
    listed: &ListedJourney,
) -> Result<(), AllocError>
    ensures { OnOk result (string_bytes text.new ≡ string_bytes text.old ++ shape_of journeys.now listed.now) }
{
    let moment = listed.tap.stamp;
    match listed.mode {
        Mode::Bus => {
            let square = Square {
                moment,
                fare: listed.fare,
            };
            write!(text, "{square}")?;
        }
        Mode::Rail => {
            if let Some(journey) = journeys.get(listed.place) {
                push_rail_shape(text, moment.day(), listed.fare, journey)?;
            }
        }
    }
    Ok(())
}

/// Adds the mark of a journey: its shape, and its number above it.
fn push_mark(
    text: &mut String,
    journeys: &[Journey],
    number: usize,
    listed: &ListedJourney,
) -> Result<(), AllocError>
    ensures { OnOk result (string_bytes text.new ≡ string_bytes text.old ++ mark_of journeys.now number listed.now) }
{
    push_shape(text, journeys, listed)?;
    let number = Number {
        number,
        moment: listed.tap.stamp,
        mode: listed.mode,
    };
    write!(text, "{number}")?;
    Ok(())
}

/// Adds the marks of a day's journeys, which are numbered from 1.
pub fn push_marks(text: &mut String, facts: &DayFacts) -> Result<(), AllocError>
    ensures { OnOk result (string_bytes text.new ≡ string_bytes text.old ++ marks facts.now.journeys.items facts.now.list.items) }
{
    for place in 0..facts.list.len() {
        push_mark(text, &facts.journeys, place + 1, &facts.list[place])?;
    }
    Ok(())
}
