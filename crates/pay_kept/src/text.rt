//! What is kept beside a journal, as a text.
ghost use Rattle.std.specs.Prelude.{◌≡◌, ◌≢◌, ◌↔◌, ℕ, Bool, true, List, IsTrue, IfOk, IfSome, IfNone};
ghost use Rattle.std.specs.String.{string_bytes};
ghost use Rattle.pay_kept.specs.Text.{kept_text, ledger_line};

use std::alloc::{AllocError, Global};

/// The line that says whether days are closed into a ledger in a file.
fn ledger_line(has_ledger: bool) -> &'static str
    ensures { result.now ≡ ledger_line has_ledger }
{
    if has_ledger {
        "\n# with a ledger\n"
    } else {
        "\n# without a ledger\n"
    }
}

/// What is kept beside a journal: a line with the zone, one that says whether days are closed into a ledger in a file, and then the fare
/// file as it is. To TOML both are comments, so the whole is a fare file too.
pub fn kept_text(
    alloc: Global,
    zone: &str,
    has_ledger: bool,
    fares: &str,
) -> Result<String, AllocError>
    ensures { IfOk result (λ text. string_bytes text ≡ kept_text zone.now has_ledger fares.now) }
{
    let line = ledger_line(has_ledger);
    let mut text = String::new(alloc);
    write!(text, "# zone {zone}{line}{fares}")?;
    Ok(text)
}

/// The fare file of such a text, if it is kept with this zone, and whether days are closed into a ledger.
pub(crate) fn parts_kept<'a>(kept: &'a str, zone: &str) -> Option<(bool, &'a str)>
    ensures kept { IfSome result (λ parts. kept.now ≡ kept_text zone.now parts.0 parts.1.now) }
    ensures other { IfNone result ((has_ledger : Bool) (fares : List ℕ) → kept.now ≢ kept_text zone.now has_ledger fares) }
{
    let kept = kept.strip_prefix("# zone ")?;
    let kept = kept.strip_prefix(zone)?;
    match kept.strip_prefix(ledger_line(true)) {
        Some(fares) => Some((true, fares)),
        None => match kept.strip_prefix(ledger_line(false)) {
            Some(fares) => Some((false, fares)),
            None => None,
        },
    }
}

/// Whether such a text is kept with this zone and says that days are closed into a ledger.
pub fn has_ledger(kept: &str, zone: &str) -> bool
    ensures { IsTrue result ↔ ((fares : List ℕ) × (kept.now ≡ kept_text zone.now true fares)) }
{
    match parts_kept(kept, zone) {
        Some((has_ledger, _)) => has_ledger,
        None => false,
    }
}
