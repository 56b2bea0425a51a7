//! What the corrections about a day do.
ghost use Rattle.std.specs.Prelude.{◌≡◌, IfOk, OnOk};
ghost use Rattle.std.specs.String.{string_bytes};
ghost use Rattle.serde_json.specs.Written.{compact_text};
ghost use Rattle.pay_explain.specs.Corrections.{correction_line, form_text};
ghost use Rattle.pay_json.specs.Values.{joined};
ghost use Rattle.pay_json.specs.Corrections.{correction_about, correction_of, corrections_joined, corrections_value, effect_word, trimmed};

use crate::arrays::{in_brackets, push_comma};
use crate::strings::Quoted;
use pay_explain::push_correction;
use pay_fix::FixSet;
use pay_names::Names;
use pay_rules::{Fix, What};
use pay_taps::TapSet;
use pay_why::{FixReason, fix_reason};
use std::alloc::{AllocError, Global};
use std::fmt;

/// A correction, with its line.
#[derive(Clone, Copy)]
struct CorrectionObject<'a> {
    fix: Fix,
    reason: FixReason,
    line: &'a str,
}

/// The form of a correction.
fn form_of(what: &What) -> &'static str
    ensures { result.now ≡ form_text what.now }
{
    match what {
        What::Void(..) => "Void",
        What::Fill(..) => "Fill",
        What::Credit(_) => "Credit",
        What::Drop(..) => "Drop",
    }
}

/// What a correction does now, in a word.
fn effect_word(reason: FixReason) -> &'static str
    ensures { result.now ≡ effect_word reason }
{
    match reason {
        FixReason::Stands => "Stands",
        FixReason::DroppedBy(..) => "DroppedBy",
        FixReason::NamesNothing => "NamesNothing",
    }
}

/// A line without the white space around it.
fn trimmed(line: &str) -> &str
    ensures { result.now ≡ trimmed line.now }
{
    line.trim_ascii()
}

impl<'a> fmt::Display for CorrectionObject<'a> {
    ghost use Rattle.std.specs.Prelude.{Some};
    ghost use Rattle.serde_json.specs.Data.{object};
    ghost use Rattle.serde_json.specs.Written.{compact_text};
    ghost use Rattle.pay_json.specs.Corrections.{correction_members};

    ghost output = { λ it. Some (compact_text (object (correction_members it.line.now it.reason it.fix))) };

    #[tactic(auto, unfolding(crate::specs::Corrections::correction_members, json::specs::Print::escape_byte))]
    fn fmt<W: fmt::Write>(&self, f: &mut fmt::Formatter<W>) -> fmt::Result {
        let form = Quoted(form_of(&self.fix.what));
        let (staff, seq) = (self.fix.staff, self.fix.seq);
        let effect = Quoted(effect_word(self.reason));
        let line = Quoted(trimmed(self.line));
        write!(
            f,
            "{{\"form\":{form},\"staff\":{staff},\"seq\":{seq},\"effect\":{effect},\"sentence\":{line}}}"
        )
    }
}

/// Adds a correction, if it has a line.
#[tactic(auto, using(crate::proofs::Adding::then), unfolding(crate::specs::Values::joined))]
fn push_told(text: &mut String, line: &str, reason: FixReason, fix: &Fix) -> Result<(), AllocError>
    ensures { OnOk result (string_bytes text.new ≡ joined (string_bytes text.old) (correction_of line.now reason fix.now)) }
{
    if !line.is_empty() {
        let correction = CorrectionObject {
            fix: *fix,
            reason,
            line,
        };
        push_comma(text)?;
        write!(text, "{correction}")?;
    }
    Ok(())
}

/// Adds an accepted correction, if it is about a day.
fn push_about(
    alloc: Global,
    text: &mut String,
    names: &Names,
    taps: &TapSet,
    fixes: &FixSet,
    day: u32,
    fix: &Fix,
) -> Result<(), AllocError>
    ensures { OnOk result (string_bytes text.new ≡ joined (string_bytes text.old) (correction_about names.now taps.now fixes.now day fix.now)) }
{
    let mut line = String::new(alloc);
    push_correction(&mut line, names, taps, fixes, day, fix)?;
    push_told(text, line.as_str(), fix_reason(taps, fixes, fix), fix)?;
    Ok(())
}

/// The accepted corrections about a day, and those that name none, in the order of their numbers, with commas between them.
fn corrections_joined(
    alloc: Global,
    names: &Names,
    taps: &TapSet,
    fixes: &FixSet,
    day: u32,
) -> Result<String, AllocError>
    ensures { IfOk result (λ text. string_bytes text ≡ corrections_joined names.now taps.now fixes.now day) }
{
    let mut text = String::new(alloc);
    let accepted = fixes.as_slice();
    for fix in accepted {
        push_about(alloc, &mut text, names, taps, fixes, day, fix)?;
    }
    Ok(text)
}

/// The same as an array.
#[tactic(auto, using(crate::proofs::Items::array_is))]
pub fn corrections_array(
    alloc: Global,
    names: &Names,
    taps: &TapSet,
    fixes: &FixSet,
    day: u32,
) -> Result<String, AllocError>
    ensures { IfOk result (λ text. string_bytes text ≡ compact_text (corrections_value names.now taps.now fixes.now day)) }
{
    let corrections = corrections_joined(alloc, names, taps, fixes, day)?;
    in_brackets(alloc, corrections.as_str())
}
