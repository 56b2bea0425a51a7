//! The job `rebuild`: the lines of what a ledger archives.
ghost use Rattle.std.specs.Prelude.{◌≡◌, ◌++◌, map as each, IfOk, OnOk};
ghost use Rattle.std.specs.List.{flat_map};
ghost use Rattle.pay_rules.specs.SetsParts.{sets};
ghost use Rattle.pay_journal.specs.Lines.{line_of};
ghost use Rattle.pay_jobs.specs.Rebuild.{line_of_tap, line_of_fix, lines_of_account};

use crate::fault::Fault;
use crate::run::read_fares;
use pay_book::Book;
use pay_journal::line_of;
use pay_ledger::{Ledger, LedgerFault};
use pay_rules::{Fares, Fix, PostFault, Tap};
use pay_shard::{Asked, Command};
use sqlite::Alter;
use std::alloc::Global;

/// The lines of all taps and corrections that a ledger archives, account after account, as a journal has them: of each account its taps by
/// reader and number, and then its corrections by member of staff and number. What was accepted and never closed is not there.
pub fn rebuilt<S: Alter>(
    alloc: Global,
    fares: &str,
    ledger: &mut Ledger<S>,
) -> Result<Vec<u8>, Fault> {
    let editions = read_fares(alloc, fares)?;
    let accounts: Vec<Book> = ledger.restore(&editions)?;
    lines_of(alloc, &accounts)
}

/// The lines of accounts.
fn lines_of(alloc: Global, accounts: &[Book]) -> Result<Vec<u8>, Fault>
    ensures { IfOk result (λ text. text.items ≡ flat_map (λ a. lines_of_account (a.account, a.accepted)) accounts.now) }
{
    let mut text = Vec::new(alloc);
    for account in accounts {
        put_account(&mut text, account)?;
    }
    Ok(text)
}

/// Puts the lines of an account at the end of a text.
fn put_account(text: &mut Vec<u8>, account: &Book) -> Result<(), Fault>
    ensures { OnOk result (text.new.items ≡ text.old.items ++ lines_of_account (account.now.account, account.now.accepted)) }
{
    let sets = account.sets()?;
    put_taps(text, sets.taps())?;
    put_fixes(text, sets.fixes())
}

/// Puts the lines of taps at the end of a text.
fn put_taps(text: &mut Vec<u8>, taps: &[Tap]) -> Result<(), Fault>
    ensures { OnOk result (text.new.items ≡ text.old.items ++ flat_map line_of_tap taps.now) }
{
    for tap in taps {
        put_line(text, Asked::Tap(*tap))?;
    }
    Ok(())
}

/// Puts the lines of corrections at the end of a text.
fn put_fixes(text: &mut Vec<u8>, fixes: &[Fix]) -> Result<(), Fault>
    ensures { OnOk result (text.new.items ≡ text.old.items ++ flat_map line_of_fix fixes.now) }
{
    for fix in fixes {
        put_line(text, Asked::Fix(*fix))?;
    }
    Ok(())
}

/// Puts the line of a tap or a correction at the end of a text. One that no line can ask for is no archive.
fn put_line(text: &mut Vec<u8>, asked: Asked) -> Result<(), Fault>
    ensures { OnOk result (text.new.items ≡ text.old.items ++ line_of asked) }
{
    let Some(command) = Command::of(asked) else {
        return Err(Fault::from(LedgerFault::Refused(PostFault::BadArchive)));
    };
    text.extend_from_slice(&line_of(command))?;
    Ok(())
}
