//! The correction that a form asks for.
ghost use Rattle.std.specs.Prelude.{◌≡◌, ◌++◌, map, IfOk, OnOk};
ghost use Rattle.pay_web.specs.Corrections.{fix_by, fix_in, fix_line, is_over, is_whose, space_for_plus};

use pay_wire::{SpelledCommand, SpelledFix, SpelledWhat, read_command};
use std::alloc::{AllocError, Global};

/// The correction of a clerk, with a number among the clerk's, of an account: what it does is as a line has it, with a plus or a space for
/// each space. None where that is no correction.
pub(crate) fn fix_by(
    alloc: Global,
    staff: u16,
    seq: u32,
    account: u32,
    what: &str,
) -> Result<Option<SpelledFix>, AllocError>
    ensures { IfOk result (λ fix. fix ≡ fix_by staff seq account what.now) }
{
    let line = fix_line(alloc, staff, seq, account, what)?;
    Ok(fix_in(staff, account, line.as_slice()))
}

/// The line of such a correction.
fn fix_line(
    alloc: Global,
    staff: u16,
    seq: u32,
    account: u32,
    what: &str,
) -> Result<Vec<u8>, AllocError>
    ensures { IfOk result (λ line. line.items ≡ fix_line staff seq account what.now) }
{
    let mut head = String::new(alloc);
    write!(head, "FIX {staff} {seq} {account} ")?;
    let mut line = head.into_bytes();
    push_with_spaces(&mut line, what.as_bytes())?;
    Ok(line)
}

/// Adds a text, with a space for each plus.
fn push_with_spaces(line: &mut Vec<u8>, text: &[u8]) -> Result<(), AllocError>
    ensures { OnOk result (line.new.items ≡ line.old.items ++ map space_for_plus text.now) }
{
    for byte in text {
        line.push(space_for_plus(*byte))?;
    }
    Ok(())
}

/// A space for a plus, and else the byte.
fn space_for_plus(byte: u8) -> u8
    ensures { result ≡ space_for_plus byte }
{
    if byte == b'+' { b' ' } else { byte }
}

/// The correction that a line spells, if it is this clerk's and of this account.
fn fix_in(staff: u16, account: u32, line: &[u8]) -> Option<SpelledFix>
    ensures { result ≡ fix_in staff account line.now }
{
    match read_command(line) {
        Some(SpelledCommand::Fix(fix)) if is_whose(staff, account, &fix) => Some(fix),
        _ => None,
    }
}

/// Whether a correction is this clerk's and of this account.
fn is_whose(staff: u16, account: u32, fix: &SpelledFix) -> bool
    ensures { result ≡ is_whose staff account fix.now }
{
    fix.staff == staff && fix.account == account
}

/// Whether a correction gives more back than this.
pub(crate) fn is_over(limit: u32, fix: &SpelledFix) -> bool
    ensures { result ≡ is_over limit fix.now }
{
    match fix.what {
        SpelledWhat::Credit(credit) => credit.pence > limit,
        _ => false,
    }
}
