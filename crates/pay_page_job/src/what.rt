//! What a correction does, in words.
ghost use Rattle.std.specs.Prelude.{◌≡◌, IfOk};
ghost use Rattle.std.specs.String.{string_bytes};
ghost use Rattle.pay_page_job.specs.Corrected.{kind_word, line_of, what_words};

use pay_rules::Kind;
use pay_wire::{SpelledCommand, SpelledFix, SpelledWhat, command_line};
use std::alloc::{AllocError, Global};

/// What a correction does, as its line says it after the account: `VOID 1 1`.
pub(crate) fn what_words(alloc: Global, what: &SpelledWhat) -> Result<String, AllocError>
    ensures { IfOk result (λ text. string_bytes text ≡ what_words what.now) }
{
    let mut text = String::new(alloc);
    match what {
        SpelledWhat::Void(reader, seq) => write!(text, "VOID {reader} {seq}")?,
        SpelledWhat::Fill { utc, place, kind } => {
            let kind = kind_word(*kind);
            write!(text, "FILL {utc} {place} {kind}")?;
        }
        SpelledWhat::Credit(credit) => {
            let (day, pence) = (credit.day, credit.pence);
            write!(text, "CREDIT {day} {pence}")?;
        }
        SpelledWhat::Drop(staff, seq) => write!(text, "DROP {staff} {seq}")?,
    }
    Ok(text)
}

/// The line of a correction, newline included.
pub(crate) fn line_of(alloc: Global, fix: &SpelledFix) -> Result<Vec<u8>, AllocError>
    ensures { IfOk result (λ line. line.items ≡ line_of fix.now) }
{
    let line = command_line(&SpelledCommand::Fix(*fix));
    Vec::from_slice(alloc, line.as_slice())
}

/// The word of a kind of tap.
fn kind_word(kind: Kind) -> &'static str
    ensures { result.now ≡ kind_word kind }
{
    match kind {
        Kind::In => "IN",
        Kind::Out => "OUT",
        Kind::Bus => "BUS",
    }
}
