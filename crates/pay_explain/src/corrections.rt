//! What the corrections about a day do, as lines.
ghost use Rattle.std.specs.Prelude.{◌≡◌, ◌++◌, OnOk};
ghost use Rattle.std.specs.List.{flat_map};
ghost use Rattle.std.specs.String.{string_bytes};
ghost use Rattle.pay_explain.specs.Corrections.{correction_line, corrections_text, form_text, is_about, place_of, tap_of};

use crate::amounts::Pounds;
use crate::routes::{NamedRoute, Route};
use crate::sentences::When;
use pay_day::Moment;
use pay_fix::{FixSet, day_named};
use pay_names::Names;
use pay_rules::{Fix, Kind, Tap, What};
use pay_taps::TapSet;
use pay_why::{FixReason, fix_reason};
use std::alloc::AllocError;
use std::fmt;

/// A correction as a line: `         Void 3 1 of tap 1 1, rail in at 10 at 07:00:00: stands`.
#[derive(Clone, Copy)]
pub struct CorrectionLine<'a> {
    /// The names of places.
    pub names: &'a Names,
    /// The service day of which is spoken.
    pub day: u32,
    /// The correction.
    pub fix: Fix,
    /// The tap that a Void names, if it is accepted.
    pub tap: Option<Tap>,
    /// What the correction does now.
    pub reason: FixReason,
}

/// A tap, for a service day: `rail in at 10 at 07:00:00`.
#[derive(Clone, Copy)]
struct Tapped<'a> {
    names: &'a Names,
    day: u32,
    stamp: Moment,
    place: u16,
    kind: Kind,
}

/// What a correction is of, for a service day.
#[derive(Clone, Copy)]
struct Subject<'a> {
    names: &'a Names,
    day: u32,
    tap: Option<Tap>,
    what: What,
}

/// What a correction does now.
#[derive(Clone, Copy)]
struct Effect(FixReason);

impl<'a> fmt::Display for Tapped<'a> {
    ghost use Rattle.std.specs.Prelude.{Some};
    ghost use Rattle.pay_explain.specs.Corrections.{tap_text};

    ghost output = { λ tap. Some (tap_text tap.names.now tap.day tap.stamp tap.place tap.kind) };

    fn fmt<W: fmt::Write>(&self, f: &mut fmt::Formatter<W>) -> fmt::Result {
        let place = NamedRoute {
            names: self.names,
            route: place_of(self.place, self.kind),
        };
        let when = When {
            day: self.day,
            moment: self.stamp,
        };
        write!(f, "{place} {when}")
    }
}

impl<'a> fmt::Display for Subject<'a> {
    ghost use Rattle.std.specs.Prelude.{Some};
    ghost use Rattle.pay_explain.specs.Corrections.{subject_text};

    ghost output = { λ it. Some (subject_text it.names.now it.day it.tap it.what) };

    fn fmt<W: fmt::Write>(&self, f: &mut fmt::Formatter<W>) -> fmt::Result {
        let names = self.names;
        let day = self.day;
        match self.what {
            What::Void(reader, seq) => match self.tap {
                Some(tap) => {
                    let tap = Tapped {
                        names,
                        day,
                        stamp: tap.stamp,
                        place: tap.place,
                        kind: tap.kind,
                    };
                    write!(f, "tap {reader} {seq}, {tap}")
                }
                None => write!(f, "tap {reader} {seq}"),
            },
            What::Fill(stamp, place, kind) => {
                let tap = Tapped {
                    names,
                    day,
                    stamp,
                    place,
                    kind,
                };
                write!(f, "{tap}")
            }
            What::Credit(credit) => {
                let pounds = Pounds(credit.pence());
                write!(f, "{pounds}")
            }
            What::Drop(staff, seq) => write!(f, "{staff} {seq}"),
        }
    }
}

impl fmt::Display for Effect {
    ghost use Rattle.std.specs.Prelude.{Some};
    ghost use Rattle.pay_explain.specs.Corrections.{effect_text};

    ghost output = { λ effect. Some (effect_text effect.0) };

    fn fmt<W: fmt::Write>(&self, f: &mut fmt::Formatter<W>) -> fmt::Result {
        match self.0 {
            FixReason::Stands => f.write_str("stands"),
            FixReason::DroppedBy(staff, seq) => write!(f, "withdrawn by {staff} {seq}"),
            FixReason::NamesNothing => f.write_str("names nothing"),
        }
    }
}

impl<'a> fmt::Display for CorrectionLine<'a> {
    ghost use Rattle.std.specs.Prelude.{Some};
    ghost use Rattle.pay_explain.specs.Corrections.{correction_text};

    ghost output = { λ line. Some (correction_text line.names.now line.day line.tap line.reason line.fix) };

    fn fmt<W: fmt::Write>(&self, f: &mut fmt::Formatter<W>) -> fmt::Result {
        let form = form_of(&self.fix.what);
        let staff = self.fix.staff;
        let seq = self.fix.seq;
        let subject = Subject {
            names: self.names,
            day: self.day,
            tap: self.tap,
            what: self.fix.what,
        };
        let effect = Effect(self.reason);
        write!(f, "         {form} {staff} {seq} of {subject}: {effect}\n")
    }
}

/// The form of a correction.
fn form_of(what: &What) -> &'static str
    ensures { result.now ≡ form_text what.now }
{
    match what {
        What::Void(..) => "Void",
        What::Fill(..) => "Fill",
        What::Credit(_) => "Credit",
        What::Drop(..) => "Drop",
    }
}

/// Where a tap was made.
fn place_of(place: u16, kind: Kind) -> Route
    ensures { result ≡ place_of place kind }
{
    match kind {
        Kind::In => Route::In(place),
        Kind::Out => Route::Out(place),
        Kind::Bus => Route::Bus(place),
    }
}

/// The tap that a Void names, if it is accepted.
fn tap_of(taps: &TapSet, what: &What) -> Option<Tap>
    ensures { result ≡ tap_of taps.now what.now }
{
    match what {
        What::Void(reader, seq) => taps.get(*reader, *seq),
        _ => None,
    }
}

/// Whether what names this day is about a day: what names none may be about any.
fn is_about(named: Option<u32>, day: u32) -> bool
    ensures { result ≡ is_about named day }
{
    match named {
        Some(named) => named == day,
        None => true,
    }
}

/// Adds the line of an accepted correction, if it is about a day.
pub fn push_correction(
    text: &mut String,
    names: &Names,
    taps: &TapSet,
    fixes: &FixSet,
    day: u32,
    fix: &Fix,
) -> Result<(), AllocError>
    ensures { OnOk result (string_bytes text.new ≡ string_bytes text.old ++ correction_line names.now taps.now fixes.now day fix.now) }
{
    if is_about(day_named(taps, fixes, &fix.what), day) {
        let line = CorrectionLine {
            names,
            day,
            fix: *fix,
            tap: tap_of(taps, &fix.what),
            reason: fix_reason(taps, fixes, fix),
        };
        write!(text, "{line}")?;
    }
    Ok(())
}

/// Adds the lines of the accepted corrections about a day, and of those that name none, in the order of their numbers.
pub fn push_corrections(
    text: &mut String,
    names: &Names,
    taps: &TapSet,
    fixes: &FixSet,
    day: u32,
) -> Result<(), AllocError>
    ensures { OnOk result (string_bytes text.new ≡ string_bytes text.old ++ corrections_text names.now taps.now fixes.now day) }
{
    let accepted = fixes.as_slice();
    for fix in accepted {
        push_correction(text, names, taps, fixes, day, fix)?;
    }
    Ok(())
}
