//! The lines of one account in a text, with nothing kept of the others.
ghost use Rattle.std.specs.Prelude.{◌≡◌, ◌<◌, ◌-◌, ◌++◌, ◌∷◌, [], if◌then◌else◌, IfOk, IfErr, OnOk};
ghost use Rattle.std.specs.List.{AllByRecursion};
ghost use Rattle.pay_session.specs.Requests.{line_requests, request_of};
ghost use Rattle.pay_account_lines.specs.OwnLines.{is_own, own_lines, lines_through};
ghost use Rattle.pay_account_lines.specs.Adding.{HasAccount, IsRefused};

use crate::account_lines::LineFault;
use crate::line_mark::mark_of;
use pay_session::cut;
use std::alloc::{AllocError, Global};

/// The lines of an account in a text, in their order. What stands after its last newline is left out, as a replay leaves it.
pub fn own_lines(alloc: Global, account: u32, text: &[u8]) -> Result<Vec<u8>, LineFault>
    ensures own { IfOk result (λ own. own.items ≡ own_lines account text.now) }
    ensures owned { IfOk result (λ _. AllByRecursion HasAccount (line_requests text.now)) }
    ensures refused { IfErr result (IsRefused text.now) }
{
    pay_session::laws::line_by_line();
    let mut own = Vec::new(alloc);
    let mut left = text;
    let mut number = 1;
    while let Some((line, rest)) = cut(left) {
        let Some(mark) = mark_of(line) else {
            return Err(LineFault::Line { line: number });
        };
        if mark.account == account {
            add_line(&mut own, line)?;
        }
        number += 1;
        left = rest;
    }
    Ok(own)
}

/// Adds a line and its newline to others.
fn add_line(own: &mut Vec<u8>, line: &[u8]) -> Result<(), AllocError>
    ensures { OnOk result (own.new.items ≡ own.old.items ++ (line.now ++ 10 ∷ [])) }
{
    own.extend_from_slice(line)?;
    own.push(b'\n')?;
    Ok(())
}

/// How many lines of a text there are up to the one that is an account's own of this number, from 1, with it: all, where it has fewer.
pub fn lines_through(account: u32, text: &[u8], own: u64) -> u64
    ensures { result ≡ lines_through account own (line_requests text.now) }
{
    pay_session::laws::line_by_line();
    let mut left = text;
    let mut more = own;
    let mut lines = 0;
    while let Some((line, rest)) = cut(left) {
        if more == 0 {
            return lines;
        }
        more = without(more, account, line);
        lines += 1;
        left = rest;
    }
    lines
}

/// So many lines that are sought of an account, without this one if it is one of them. It is given without its newline.
fn without(more: u64, account: u32, line: &[u8]) -> u64
    requires { 0 < more }
    ensures { result ≡ (if is_own account (request_of line.now) then more - 1 else more) }
{
    match mark_of(line) {
        Some(mark) if mark.account == account => more - 1,
        _ => more,
    }
}
