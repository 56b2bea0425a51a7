//! The text of all metrics.
ghost use Rattle.std.specs.Prelude.{◌≡◌, ◌++◌, OnOk, IfOk, map, option_map};
ghost use Rattle.std.specs.List.{flat_map};
ghost use Rattle.std.specs.String.{string_bytes};
ghost use Rattle.pay_metrics.specs.Families.{families, family_of};
ghost use Rattle.pay_metrics.specs.Fields.{parted};
ghost use Rattle.pay_metrics.specs.Metrics.{all_text, headed, if_any, labelled, labelled_by, metric_text, metrics_text, plain, sample, sample_of, samples};

use crate::families::{Family, families};
use crate::fields::{after, fields_of, is_number, parted};
use std::alloc::{AllocError, Global};

/// The text where a service does not answer.
pub const DOWN: &str = "\
# HELP farebox_up Whether the service answers.
# TYPE farebox_up gauge
farebox_up 0
";

/// What the text begins with where it does.
const UP: &str = "\
# HELP farebox_up Whether the service answers.
# TYPE farebox_up gauge
farebox_up 1
";

/// Adds a number of a metric.
#[tactic(auto, unfolding(crate::specs::Metrics::plain))]
fn push_plain(text: &mut String, metric: &str, number: &str) -> Result<(), AllocError>
    ensures { OnOk result (string_bytes text.new ≡ string_bytes text.old ++ plain metric.now number.now) }
{
    write!(text, "{metric} {number}\n")
}

/// Adds one with a label of this value.
#[tactic(auto, unfolding(crate::specs::Metrics::labelled))]
fn push_labelled(
    text: &mut String,
    metric: &str,
    label: &str,
    value: &str,
    number: &str,
) -> Result<(), AllocError>
    ensures { OnOk result (string_bytes text.new ≡ string_bytes text.old ++ labelled metric.now label.now value.now number.now) }
{
    write!(text, "{metric}{{{label}=\"{value}\"}} {number}\n")
}

/// The same of `VALUE=NUMBER`, if the value is a number too.
fn push_labelled_by(
    text: &mut String,
    metric: &str,
    label: &str,
    rest: &str,
) -> Result<(), AllocError>
    ensures { OnOk result (string_bytes text.new ≡ string_bytes text.old ++ labelled_by metric.now label.now (parted rest.now)) }
{
    match parted(rest) {
        Some((value, number)) if is_number(value) => {
            push_labelled(text, metric, label, value, number)
        }
        _ => Ok(()),
    }
}

/// Adds what stands in a field behind the name.
fn push_rest(text: &mut String, family: &Family, rest: &str) -> Result<(), AllocError>
    ensures { OnOk result (string_bytes text.new ≡ string_bytes text.old ++ sample_of family.now.metric.now (option_map (λ label. label.now) family.now.label) rest.now) }
{
    match family.label {
        Some(label) => push_labelled_by(text, family.metric, label, rest),
        None => push_plain(text, family.metric, rest),
    }
}

/// Adds what a field says of a metric.
fn push_sample(text: &mut String, family: &Family, field: &str) -> Result<(), AllocError>
    ensures { OnOk result (string_bytes text.new ≡ string_bytes text.old ++ sample (family_of family.now) field.now) }
{
    match after(field, family.field) {
        Some(rest) => push_rest(text, family, rest),
        None => Ok(()),
    }
}

/// What fields say of a metric.
fn samples(alloc: Global, family: &Family, fields: &str) -> Result<String, AllocError>
    ensures { IfOk result (λ text. string_bytes text ≡ samples (family_of family.now) fields.now) }
{
    let mut text = String::new(alloc);
    for field in fields.split(' ') {
        push_sample(&mut text, family, field)?;
    }
    Ok(text)
}

/// Adds numbers of a metric, below what it is.
#[tactic(auto, unfolding(crate::specs::Metrics::headed))]
fn push_headed(text: &mut String, family: &Family, numbers: &str) -> Result<(), AllocError>
    ensures { OnOk result (string_bytes text.new ≡ string_bytes text.old ++ headed (family_of family.now) numbers.now) }
{
    let metric = family.metric;
    let help = family.help;
    let kind = family.kind;
    write!(
        text,
        "# HELP {metric} {help}\n# TYPE {metric} {kind}\n{numbers}"
    )
}

/// The same, if there are any.
fn push_any(text: &mut String, family: &Family, numbers: &str) -> Result<(), AllocError>
    ensures { OnOk result (string_bytes text.new ≡ string_bytes text.old ++ if_any (family_of family.now) numbers.now) }
{
    if numbers.is_empty() {
        Ok(())
    } else {
        push_headed(text, family, numbers)
    }
}

/// Adds all that fields say of a metric.
fn push_metric(
    alloc: Global,
    text: &mut String,
    family: &Family,
    fields: &str,
) -> Result<(), AllocError>
    ensures { OnOk result (string_bytes text.new ≡ string_bytes text.old ++ metric_text fields.now (family_of family.now)) }
{
    let numbers = samples(alloc, family, fields)?;
    push_any(text, family, numbers.as_str())
}

/// Adds all that fields say of some metrics.
fn push_metrics(
    alloc: Global,
    text: &mut String,
    families: &[Family],
    fields: &str,
) -> Result<(), AllocError>
    ensures { OnOk result (string_bytes text.new ≡ string_bytes text.old ++ flat_map (metric_text fields.now) (map family_of families.now)) }
{
    for family in families {
        push_metric(alloc, text, family, fields)?;
    }
    Ok(())
}

/// All that fields say.
fn all_text(alloc: Global, fields: &str) -> Result<String, AllocError>
    ensures { IfOk result (λ text. string_bytes text ≡ all_text fields.now) }
{
    let mut text = String::from_str(alloc, UP)?;
    push_metrics(alloc, &mut text, &families(), fields)?;
    Ok(text)
}

/// The text by a line with which a service answers `STATS`, without its newline, or none by any other line. Fields of other names are left
/// out, so that a later service may tell more.
pub fn metrics_of(alloc: Global, line: &str) -> Result<Option<String>, AllocError>
    ensures { IfOk result (λ text. option_map string_bytes text ≡ metrics_text line.now) }
{
    match fields_of(line) {
        Some(fields) => Ok(Some(all_text(alloc, fields)?)),
        None => Ok(None),
    }
}
