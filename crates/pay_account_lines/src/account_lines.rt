ghost use Rattle.std.specs.Prelude.{◌≡◌, ◌≤◌, [], ◌++◌, length, take, drop, IfOk, IfErr, OnErr, OnOk, ◌∷◌};
ghost use Rattle.std.specs.List.{AllByRecursion};
ghost use Rattle.pay_session.specs.Requests.{line_requests, rest_of};
ghost use Rattle.pay_account_lines.specs.OwnLines.{own_lines};
ghost use Rattle.pay_account_lines.specs.Adding.{HasAccount, IsRefused, AreAdded};

use crate::line_mark::{LineMark, mark_of};
use pay_session::cut;
use std::alloc::{AllocError, Global};
use std::marker::Model;
use thiserror::Error;

/// Why lines are not added.
#[derive(Clone, Copy, Debug, PartialEq, Eq, Error)]
pub enum LineFault {
    /// The line of this number, from 1, is neither a tap nor a correction.
    #[error("line {line}: neither a tap nor a correction")]
    Line { line: u64 },
    /// 90: no memory.
    #[error("90 Memory")]
    Memory,
}

impl From<AllocError> for LineFault {
    ghost use Rattle.std.specs.Prelude.{◌≡◌};
    ghost use Rattle.pay_account_lines.specs.declared.account_lines.LineFault.TheVariants.{Memory};

    ghost from_gives = { λ _ fault. fault ≡ Memory };

    fn from(_: AllocError) -> LineFault {
        LineFault::Memory
    }
}

/// The lines of journals that were read so far, by account. In a contract it is their text: each line with its newline.
#[derive(Drop)]
pub struct AccountLines {
    alloc: Global,
    text: Vec<u8>,
    marks: Vec<LineMark>,
}

impl Model for AccountLines {
    ghost use Rattle.std.specs.Prelude.{List, ℕ};
    ghost use Rattle.pay_account_lines.specs.Marks.{AreMarksOf};

    ghost Value = { List ℕ };

    ghost view = { λ l. l.text.items };

    ghost invariant = { λ l. AreMarksOf l.marks.items l.text.items };
}

impl AccountLines {
    /// No lines.
    pub fn new(alloc: Global) -> AccountLines
        ensures { result ≡ [] }
    {
        AccountLines {
            alloc,
            text: Vec::new(alloc),
            marks: Vec::new(alloc),
        }
    }

    /// Adds the whole lines of a text: what stands after its last newline is left out. The answer is how many bytes were taken. On an `Err`
    /// all is as before.
    pub fn add(&mut self, text: &[u8]) -> Result<usize, LineFault>
        ensures added { IfOk result (λ taken. self.new ≡ self.old ++ take taken text.now) }
        ensures taken { IfOk result (λ taken. taken ≤ length text.now) }
        ensures rest { IfOk result (λ taken. drop taken text.now ≡ rest_of text.now) }
        ensures owned { IfOk result (λ _. AllByRecursion HasAccount (line_requests text.now)) }
        ensures refused { IfErr result (IsRefused text.now) }
        ensures kept { OnErr result (self.new ≡ self.old) }
    {
        let before = self.marks.len();
        let added = add_lines(&mut self.marks, &mut self.text, text);
        if added.is_err() {
            self.marks.truncate(before);
        }
        added
    }

    /// The lines of an account, in the order in which they were added.
    pub fn of(&self, account: u32) -> Result<Vec<u8>, AllocError>
        ensures own { IfOk result (λ text. text.items ≡ own_lines account self.now) }
        ensures whole { rest_of self.now ≡ [] }
    {
        pay_session::laws::line_by_line();
        let mut own = Vec::new(self.alloc);
        let mut start = 0;
        for mark in &self.marks {
            let end = start + usize::from(mark.bytes);
            if mark.account == account {
                own.extend_from_slice(&self.text[start..end])?;
            }
            start = end;
        }
        Ok(own)
    }
}

/// Adds the whole lines of a text and their marks to others. On an `Err` there may be marks more, and no bytes.
fn add_lines(
    marks: &mut Vec<LineMark>,
    bytes: &mut Vec<u8>,
    text: &[u8],
) -> Result<usize, LineFault>
    ensures added { IfOk result (AreAdded marks.old.items marks.new.items text.now) }
    ensures bytes { IfOk result (λ taken. bytes.new.items ≡ bytes.old.items ++ take taken text.now) }
    ensures refused { IfErr result (IsRefused text.now) }
    ensures kept { take (length marks.old.items) marks.new.items ≡ marks.old.items }
    ensures same { OnErr result (bytes.new.items ≡ bytes.old.items) }
{
    let taken = mark_lines(marks, text)?;
    bytes.extend_from_slice(&text[..taken])?;
    Ok(taken)
}

/// Adds the marks of the whole lines of a text to others, also of those before a line that is refused. The answer is how many bytes these
/// lines have.
fn mark_lines(marks: &mut Vec<LineMark>, text: &[u8]) -> Result<usize, LineFault>
    ensures added { IfOk result (AreAdded marks.old.items marks.new.items text.now) }
    ensures refused { IfErr result (IsRefused text.now) }
    ensures kept { take (length marks.old.items) marks.new.items ≡ marks.old.items }
{
    pay_session::laws::line_by_line();
    let mut left = text;
    let mut number = 1;
    while let Some((line, rest)) = cut(left) {
        let Some(mark) = mark_of(line) else {
            return Err(LineFault::Line { line: number });
        };
        add_mark(marks, mark)?;
        number += 1;
        left = rest;
    }
    Ok(text.len() - left.len())
}

fn add_mark(marks: &mut Vec<LineMark>, mark: LineMark) -> Result<(), AllocError>
    ensures added { OnOk result (marks.new.items ≡ marks.old.items ++ mark ∷ []) }
    ensures kept { OnErr result (marks.new.items ≡ marks.old.items) }
{
    marks.push(mark)?;
    Ok(())
}
