//! The accepted taps of a day, as a table.
ghost use Rattle.std.specs.Prelude.{◌≡◌, ◌++◌, IfOk, OnOk};
ghost use Rattle.std.specs.List.{flat_map};
ghost use Rattle.std.specs.FinMap.{values};
ghost use Rattle.std.specs.String.{string_bytes};
ghost use Rattle.pay_explain.specs.Routes.{place_text};
ghost use Rattle.pay_fix_page.specs.TapRows.{day_row, day_rows, taps_part, taps_table};

use crate::back_forms::{BackForm, TakenBack};
use pay_explain::{Clock, NamedPlace};
use pay_html::Escaped;
use pay_names::Names;
use pay_rules::{Kind, Tap};
use pay_taps::TapSet;
use std::alloc::{AllocError, Global};
use std::fmt;

/// What a tap's kind is called.
#[derive(Clone, Copy)]
struct KindName(Kind);

/// What a tap is, as cells of a row.
#[derive(Clone, Copy)]
struct TapCells<'a> {
    tap: Tap,
    place: &'a str,
}

impl fmt::Display for KindName {
    ghost use Rattle.std.specs.Prelude.{Some};
    ghost use Rattle.pay_fix_page.specs.TapRows.{kind_text};

    ghost output = { λ it. Some (kind_text it.0) };

    fn fmt<W: fmt::Write>(&self, f: &mut fmt::Formatter<W>) -> fmt::Result {
        f.write_str(match self.0 {
            Kind::In => "In at a station",
            Kind::Out => "Out of a station",
            Kind::Bus => "On a bus",
        })
    }
}

impl<'a> fmt::Display for TapCells<'a> {
    ghost use Rattle.std.specs.Prelude.{Some};
    ghost use Rattle.pay_fix_page.specs.TapRows.{tap_cells};

    ghost output = { λ it. Some (tap_cells it.tap it.place.now) };

    #[tactic(auto, unfolding(crate::specs::TapRows::tap_cells))]
    fn fmt<W: fmt::Write>(&self, f: &mut fmt::Formatter<W>) -> fmt::Result {
        let (reader, seq) = (self.tap.reader, self.tap.seq);
        let clock = Clock(self.tap.stamp);
        let place = Escaped(self.place);
        let kind = KindName(self.tap.kind);
        write!(
            f,
            "<th scope=\"row\" class=\"time\">{clock}</th><td>{place}</td><td>{kind}</td><td>{reader} {seq}</td>"
        )
    }
}

/// A place as it is called.
fn place_text(alloc: Global, names: &Names, number: u16) -> Result<String, AllocError>
    ensures { IfOk result (λ text. string_bytes text ≡ place_text names.now number) }
{
    let place = NamedPlace { names, number };
    let mut text = String::new(alloc);
    write!(text, "{place}")?;
    Ok(text)
}

/// Adds the row of a tap, if it is of a day.
fn push_row(
    alloc: Global,
    text: &mut String,
    names: &Names,
    account: u32,
    day: u32,
    tap: &Tap,
) -> Result<(), AllocError>
    ensures { OnOk result (string_bytes text.new ≡ string_bytes text.old ++ day_row names.now account day tap.now) }
{
    if tap.stamp.day() == day {
        let place = place_text(alloc, names, tap.place)?;
        let cells = TapCells {
            tap: *tap,
            place: place.as_str(),
        };
        let form = BackForm {
            account,
            day,
            what: TakenBack::Tap(u32::from(tap.reader), tap.seq),
            button: "Take it out..",
        };
        write!(text, "<tr>{cells}<td>\n{form}</td></tr>\n")?;
    }
    Ok(())
}

/// The rows of the accepted taps of a day, in the order of their numbers.
fn day_rows(
    alloc: Global,
    names: &Names,
    taps: &TapSet,
    account: u32,
    day: u32,
) -> Result<String, AllocError>
    ensures { IfOk result (λ text. string_bytes text ≡ day_rows names.now account day taps.now) }
{
    let mut text = String::new(alloc);
    let accepted = taps.list(alloc)?;
    let accepted = accepted.as_slice();
    for tap in accepted {
        push_row(alloc, &mut text, names, account, day, tap)?;
    }
    Ok(text)
}

/// Adds rows as a table.
#[tactic(auto, unfolding(crate::specs::TapRows::taps_table))]
fn push_table(text: &mut String, rows: &str) -> Result<(), AllocError>
    ensures { OnOk result (string_bytes text.new ≡ string_bytes text.old ++ taps_table rows.now) }
{
    write!(
        text,
        "<table>\n<caption>The taps of the day</caption>\n<thead>\n\
<tr><th scope=\"col\">Time</th><th scope=\"col\">Where</th><th scope=\"col\">Kind</th>\
<th scope=\"col\">Reader and number</th><th scope=\"col\">Take out</th></tr>\n</thead>\n<tbody>\n{rows}</tbody>\n</table>\n"
    )?;
    Ok(())
}

/// The same, or that there are none.
fn push_any(text: &mut String, rows: &str) -> Result<(), AllocError>
    ensures { OnOk result (string_bytes text.new ≡ string_bytes text.old ++ taps_part rows.now) }
{
    if rows.is_empty() {
        text.push_str("<p>The account has no accepted tap of this day.</p>\n")?;
    } else {
        push_table(text, rows)?;
    }
    Ok(())
}

/// Adds the accepted taps of a day, each with a form that takes it out.
pub fn push_taps(
    alloc: Global,
    text: &mut String,
    names: &Names,
    taps: &TapSet,
    account: u32,
    day: u32,
) -> Result<(), AllocError>
    ensures { OnOk result (string_bytes text.new ≡ string_bytes text.old ++ taps_part (day_rows names.now account day taps.now)) }
{
    let rows = day_rows(alloc, names, taps, account, day)?;
    push_any(text, rows.as_str())?;
    Ok(())
}
