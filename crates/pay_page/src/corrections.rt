//! What the corrections about a day do, as a list.
ghost use Rattle.std.specs.Prelude.{◌≡◌, ◌++◌, IfOk, OnOk};
ghost use Rattle.std.specs.List.{flat_map};
ghost use Rattle.std.specs.String.{string_bytes};
ghost use Rattle.pay_explain.specs.Corrections.{correction_line};
ghost use Rattle.pay_page.specs.Corrections.{correction_items, corrections_part, item_of, list_of};

use pay_explain::push_correction;
use pay_fix::FixSet;
use pay_html::Escaped;
use pay_names::Names;
use pay_rules::Fix;
use pay_taps::TapSet;
use std::alloc::{AllocError, Global};

/// Adds a line as an item of a list, if there is any.
fn push_item(text: &mut String, line: &str) -> Result<(), AllocError>
    ensures { OnOk result (string_bytes text.new ≡ string_bytes text.old ++ item_of line.now) }
{
    if !line.is_empty() {
        let line = Escaped(line);
        write!(text, "<li>{line}</li>\n")?;
    }
    Ok(())
}

/// Adds the item of an accepted correction, if it is about a day.
fn push_correction_item(
    alloc: Global,
    text: &mut String,
    names: &Names,
    taps: &TapSet,
    fixes: &FixSet,
    day: u32,
    fix: &Fix,
) -> Result<(), AllocError>
    ensures { OnOk result (string_bytes text.new ≡ string_bytes text.old ++ item_of (correction_line names.now taps.now fixes.now day fix.now)) }
{
    let mut line = String::new(alloc);
    push_correction(&mut line, names, taps, fixes, day, fix)?;
    push_item(text, line.as_str())?;
    Ok(())
}

/// The items of the accepted corrections about a day, and of those that name none, in the order of their numbers.
fn correction_items(
    alloc: Global,
    names: &Names,
    taps: &TapSet,
    fixes: &FixSet,
    day: u32,
) -> Result<String, AllocError>
    ensures { IfOk result (λ text. string_bytes text ≡ correction_items names.now taps.now fixes.now day) }
{
    let mut text = String::new(alloc);
    let accepted = fixes.as_slice();
    for fix in accepted {
        push_correction_item(alloc, &mut text, names, taps, fixes, day, fix)?;
    }
    Ok(text)
}

/// Adds items as a list.
#[tactic(auto, unfolding(crate::specs::Corrections::list_of))]
fn push_list(text: &mut String, items: &str) -> Result<(), AllocError>
    ensures { OnOk result (string_bytes text.new ≡ string_bytes text.old ++ list_of items.now) }
{
    write!(text, "<h2>Corrections</h2>\n<ul>\n{items}</ul>\n")?;
    Ok(())
}

/// The same, or that there are none.
fn push_any(text: &mut String, items: &str) -> Result<(), AllocError>
    ensures { OnOk result (string_bytes text.new ≡ string_bytes text.old ++ corrections_part items.now) }
{
    if items.is_empty() {
        text.push_str("<h2>Corrections</h2>\n<p>No correction is about this day.</p>\n")?;
    } else {
        push_list(text, items)?;
    }
    Ok(())
}

/// Adds what the corrections about a day do.
pub fn push_corrections(
    alloc: Global,
    text: &mut String,
    names: &Names,
    taps: &TapSet,
    fixes: &FixSet,
    day: u32,
) -> Result<(), AllocError>
    ensures { OnOk result (string_bytes text.new ≡ string_bytes text.old ++ corrections_part (correction_items names.now taps.now fixes.now day)) }
{
    let items = correction_items(alloc, names, taps, fixes, day)?;
    push_any(text, items.as_str())?;
    Ok(())
}
