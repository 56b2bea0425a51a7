//! The accepted corrections of an account, as a table.
ghost use Rattle.std.specs.Prelude.{◌≡◌, ◌++◌, IfOk, IfSome, OnOk};
ghost use Rattle.std.specs.List.{flat_map};
ghost use Rattle.std.specs.FinMap.{values};
ghost use Rattle.std.specs.String.{string_bytes};
ghost use Rattle.pay_day.specs.Words.{IsDay};
ghost use Rattle.pay_explain.specs.Corrections.{tap_of};
ghost use Rattle.pay_rules.specs.NamedDay.{day_named};
ghost use Rattle.pay_fix_page.specs.FixRows.{can_withdraw, cell_of, day_or, day_text, does_something, fix_line, fix_row, fix_rows, fixes_part, fixes_table, row_of};

use crate::back_forms::{BackForm, TakenBack};
use pay_dates::DatedDay;
use pay_explain::CorrectionLine;
use pay_fix::{FixSet, day_named};
use pay_html::Escaped;
use pay_names::Names;
use pay_rules::{Fix, Tap, What};
use pay_taps::TapSet;
use pay_why::{FixReason, fix_reason};
use std::alloc::{AllocError, Global};
use std::fmt;

/// What stands where a correction is withdrawn: a form, or `no` where that would change nothing.
#[derive(Clone, Copy)]
struct WithdrawCell {
    can: bool,
    account: u32,
    day: u32,
    staff: u16,
    seq: u32,
}

/// The row of a correction.
#[derive(Clone, Copy)]
struct FixRow<'a> {
    line: &'a str,
    about: &'a str,
    cell: WithdrawCell,
}

impl fmt::Display for WithdrawCell {
    ghost use Rattle.std.specs.Prelude.{Some};
    ghost use Rattle.pay_fix_page.specs.FixRows.{withdraw_cell};

    ghost output = { λ it. Some (withdraw_cell it) };

    fn fmt<W: fmt::Write>(&self, f: &mut fmt::Formatter<W>) -> fmt::Result {
        let form = BackForm {
            account: self.account,
            day: self.day,
            what: TakenBack::Fix(u32::from(self.staff), self.seq),
            button: "Withdraw..",
        };
        if self.can {
            write!(f, "\n{form}")
        } else {
            f.write_str("no")
        }
    }
}

impl<'a> fmt::Display for FixRow<'a> {
    ghost use Rattle.std.specs.Prelude.{Some};
    ghost use Rattle.pay_fix_page.specs.FixRows.{fix_row, withdraw_cell};

    ghost output = { λ it. Some (fix_row it.line.now it.about.now (withdraw_cell it.cell)) };

    #[tactic(auto, unfolding(crate::specs::FixRows::fix_row))]
    fn fmt<W: fmt::Write>(&self, f: &mut fmt::Formatter<W>) -> fmt::Result {
        let line = Escaped(self.line);
        let (about, cell) = (self.about, self.cell);
        write!(
            f,
            "<tr><th scope=\"row\">{line}</th><td>{about}</td><td>{cell}</td></tr>\n"
        )
    }
}

/// The tap that a Void names, if it is accepted.
fn tap_of(taps: &TapSet, what: &What) -> Option<Tap>
    ensures { result ≡ tap_of taps.now what.now }
{
    match what {
        What::Void(reader, seq) => taps.get(*reader, *seq),
        _ => None,
    }
}

/// The line of an accepted correction, for a service day.
fn fix_line(
    alloc: Global,
    names: &Names,
    taps: &TapSet,
    fixes: &FixSet,
    day: u32,
    fix: &Fix,
) -> Result<String, AllocError>
    ensures { IfOk result (λ text. string_bytes text ≡ fix_line names.now taps.now fixes.now day fix.now) }
{
    let line = CorrectionLine {
        names,
        day,
        fix: *fix,
        tap: tap_of(taps, &fix.what),
        reason: fix_reason(taps, fixes, fix),
    };
    let mut text = String::new(alloc);
    write!(text, "{line}")?;
    Ok(text)
}

/// A day that may not be known.
fn day_text(alloc: Global, day: Option<u32>) -> Result<String, AllocError>
    requires { IfSome day (λ day. IsDay day) }
    ensures { IfOk result (λ text. string_bytes text ≡ day_text day) }
{
    let mut text = String::new(alloc);
    match day {
        Some(day) => {
            let day = DatedDay::of(day);
            write!(text, "{day}")?;
        }
        None => text.push_str("none")?,
    }
    Ok(text)
}

/// The day whose prices are shown where a correction is withdrawn: the one that it is about, or else the page's.
fn day_or(day: u32, named: Option<u32>) -> u32
    ensures { result ≡ day_or day named }
{
    match named {
        Some(named) => named,
        None => day,
    }
}

/// Whether to withdraw a correction changes anything now.
fn can_withdraw(what: &What, reason: FixReason) -> bool
    ensures { result ≡ can_withdraw what.now reason }
{
    match what {
        What::Drop(..) => false,
        _ => does_something(reason),
    }
}

/// Whether a correction does something now.
fn does_something(reason: FixReason) -> bool
    ensures { result ≡ does_something reason }
{
    match reason {
        FixReason::Stands => true,
        FixReason::DroppedBy(..) | FixReason::NamesNothing => false,
    }
}

/// What stands where an accepted correction is withdrawn, for a service day.
fn cell_of(taps: &TapSet, fixes: &FixSet, account: u32, day: u32, fix: &Fix) -> WithdrawCell
    ensures { result ≡ cell_of taps.now fixes.now account day fix.now }
{
    WithdrawCell {
        can: can_withdraw(&fix.what, fix_reason(taps, fixes, fix)),
        account,
        day: day_or(day, day_named(taps, fixes, &fix.what)),
        staff: fix.staff,
        seq: fix.seq,
    }
}

/// Adds the row of an accepted correction.
fn push_row(
    alloc: Global,
    text: &mut String,
    names: &Names,
    taps: &TapSet,
    fixes: &FixSet,
    account: u32,
    day: u32,
    fix: &Fix,
) -> Result<(), AllocError>
    ensures { OnOk result (string_bytes text.new ≡ string_bytes text.old ++ row_of names.now taps.now fixes.now account day fix.now) }
{
    let line = fix_line(alloc, names, taps, fixes, day, fix)?;
    let about = day_text(alloc, day_named(taps, fixes, &fix.what))?;
    let row = FixRow {
        line: line.as_str(),
        about: about.as_str(),
        cell: cell_of(taps, fixes, account, day, fix),
    };
    write!(text, "{row}")?;
    Ok(())
}

/// The rows of the accepted corrections, in the order of their numbers.
fn fix_rows(
    alloc: Global,
    names: &Names,
    taps: &TapSet,
    fixes: &FixSet,
    account: u32,
    day: u32,
) -> Result<String, AllocError>
    ensures { IfOk result (λ text. string_bytes text ≡ fix_rows names.now taps.now fixes.now account day) }
{
    let mut text = String::new(alloc);
    let accepted = fixes.as_slice();
    for fix in accepted {
        push_row(alloc, &mut text, names, taps, fixes, account, day, fix)?;
    }
    Ok(text)
}

/// Adds rows as a table.
#[tactic(auto, unfolding(crate::specs::FixRows::fixes_table))]
fn push_table(text: &mut String, rows: &str) -> Result<(), AllocError>
    ensures { OnOk result (string_bytes text.new ≡ string_bytes text.old ++ fixes_table rows.now) }
{
    write!(
        text,
        "<table>\n<caption>The corrections of the account, of all days</caption>\n<thead>\n\
<tr><th scope=\"col\">Correction</th><th scope=\"col\">About</th><th scope=\"col\">Withdraw</th></tr>\n</thead>\n<tbody>\n\
{rows}</tbody>\n</table>\n"
    )?;
    Ok(())
}

/// The same, or that there are none.
fn push_any(text: &mut String, rows: &str) -> Result<(), AllocError>
    ensures { OnOk result (string_bytes text.new ≡ string_bytes text.old ++ fixes_part rows.now) }
{
    if rows.is_empty() {
        text.push_str("<p>The account has no accepted correction.</p>\n")?;
    } else {
        push_table(text, rows)?;
    }
    Ok(())
}

/// Adds the accepted corrections of an account, each with a form that withdraws it where that changes anything. They are told for a
/// service day.
pub fn push_fixes(
    alloc: Global,
    text: &mut String,
    names: &Names,
    taps: &TapSet,
    fixes: &FixSet,
    account: u32,
    day: u32,
) -> Result<(), AllocError>
    ensures { OnOk result (string_bytes text.new ≡ string_bytes text.old ++ fixes_part (fix_rows names.now taps.now fixes.now account day)) }
{
    let rows = fix_rows(alloc, names, taps, fixes, account, day)?;
    push_any(text, rows.as_str())?;
    Ok(())
}
