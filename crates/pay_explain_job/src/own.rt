//! An account by its own lines of journals, so that nothing else is priced.
ghost use Rattle.std.specs.Prelude.{◌≡◌, ◌⊎◌, ◌<◌, ◌++◌, ◌∷◌, ℕ, [], Some, length, get_or, slice_get, map as each, vec_items, IfOk, IfErr, OnOk};
ghost use Rattle.std.specs.List.{AllByRecursion};
ghost use Rattle.pay_account_lines.specs.Words.{own_lines, lines_through, HasAccount, IsOther};
ghost use Rattle.pay_session.specs.Words.{line_requests};
ghost use Rattle.pay_wire.specs.declared.refusal.Refusal.TheVariants.{BadLine};
ghost use Rattle.pay_jobs.specs.Words.{IsWantOfMemory};
ghost use Rattle.pay_jobs.specs.declared.fault.Fault.TheVariants.{JournalLineOf};
ghost use Rattle.pay_explain_job.specs.Accounts.{IsAccount, given};
ghost use Rattle.pay_explain_job.specs.Explain.{IsUnexplained};
ghost use Rattle.pay_explain_job.specs.OwnLines.{AreOwned, IsOtherLine, in_journals, own_given};

use crate::accounts::{Account, account_by};
use pay_account_lines::{LineFault, lines_through, own_lines};
use pay_jobs::Fault;
use pay_wire::Refusal;
use std::alloc::{AllocError, Global};

/// An account by its own lines of journals, which are given as texts. A line that is not accepted, or is neither a tap nor a correction, is
/// told by its number in its journal, and by that of the journal, from 0 on.
pub(crate) fn own_account(
    alloc: Global,
    fares: &str,
    zone: &str,
    texts: &[Vec<u8>],
    account: u32,
) -> Result<Account, Fault>
    ensures account { IfOk result (IsAccount (own_given fares.now zone.now account (each vec_items texts.now)) account) }
    ensures owned { IfOk result (λ _. AreOwned (each vec_items texts.now)) }
    ensures fails { IfErr result (IsUnexplained (given fares.now zone.now (each vec_items texts.now)) account) }
{
    match own_texts(alloc, texts, account) {
        Ok(own) => match account_by(alloc, fares, zone, own.as_slice(), account) {
            Ok(it) => Ok(it),
            Err(fault) => Err(in_journals(texts, account, fault)),
        },
        Err(fault) => Err(fault),
    }
}

/// Of each journal the lines of an account.
fn own_texts(alloc: Global, texts: &[Vec<u8>], account: u32) -> Result<Vec<Vec<u8>>, Fault>
    ensures own { IfOk result (λ own. each vec_items own.items ≡ each (own_lines account) (each vec_items texts.now)) }
    ensures owned { IfOk result (λ _. AreOwned (each vec_items texts.now)) }
    ensures fails { IfErr result (λ fault. IsWantOfMemory fault ⊎ IsOtherLine (each vec_items texts.now) fault) }
{
    let mut own: Vec<Vec<u8>> = Vec::new(alloc);
    for place in 0..texts.len() {
        let text = text_at(texts, place);
        let its = own_text(alloc, text, account, place as u64)?;
        add_text(&mut own, its)?;
    }
    Ok(own)
}

/// The lines of an account in one journal, which has this number.
fn own_text(alloc: Global, text: &[u8], account: u32, journal: u64) -> Result<Vec<u8>, Fault>
    ensures own { IfOk result (λ own. own.items ≡ own_lines account text.now) }
    ensures owned { IfOk result (λ _. AllByRecursion HasAccount (line_requests text.now)) }
    ensures fails { IfErr result (λ fault. IsWantOfMemory fault ⊎ ((line : ℕ) × IsOther text.now line × (fault ≡ JournalLineOf journal line BadLine))) }
{
    match own_lines(alloc, account, text) {
        Ok(own) => Ok(own),
        Err(LineFault::Line { line }) => Err(Fault::JournalLineOf {
            journal,
            line,
            why: Refusal::BadLine,
        }),
        Err(LineFault::Memory) => Err(Fault::from(AllocError)),
    }
}

/// Adds a text to others.
fn add_text(texts: &mut Vec<Vec<u8>>, text: Vec<u8>) -> Result<(), AllocError>
    ensures { OnOk result (each vec_items texts.new.items ≡ each vec_items texts.old.items ++ text.items ∷ []) }
{
    texts.push(text)?;
    Ok(())
}

/// A fault that tells a line by its number in its journal, in place of that among the account's own.
fn in_journals(texts: &[Vec<u8>], account: u32, fault: Fault) -> Fault
    ensures { result ≡ in_journals account (each vec_items texts.now) fault }
{
    match fault {
        Fault::JournalLineOf { journal, line, why } => Fault::JournalLineOf {
            journal,
            line: line_in(texts, journal, account, line),
            why,
        },
        other => other,
    }
}

/// The number in a journal of the line that is an account's own of this number.
fn line_in(texts: &[Vec<u8>], journal: u64, account: u32, line: u64) -> u64
    ensures { result ≡ lines_through account line (line_requests (get_or (each vec_items texts.now) journal [])) }
{
    let place = journal as usize;
    if place < texts.len() {
        lines_through(account, text_at(texts, place), line)
    } else {
        0
    }
}

/// The text at a place.
fn text_at(texts: &[Vec<u8>], place: usize) -> &[u8]
    requires { place < length texts.now }
    ensures { slice_get (each vec_items texts.now) place ≡ Some result.now }
{
    texts[place].as_slice()
}
