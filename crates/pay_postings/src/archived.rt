ghost use Rattle.std.specs.Prelude.{◌≡◌, ◌++◌, map, OnOk};
ghost use Rattle.pay_postings.specs.Answers.{IsPostedNewOrKept};
ghost use Rattle.pay_set_rows.specs.SetRows.{tap_row, fix_row};
ghost use Rattle.pay_postings.specs.Archived.{parts};

use crate::posted::Posted;
use pay_rows::{FixRow, TapRow};
use pay_rules::{Fix, PostFault, Posting, Quote, Tap};
use pay_set_rows::{fix_row, tap_row};
use std::alloc::AllocError;

/// What a ledger has of an account: its postings, and the rows of its archived taps and corrections, each in the order in
/// which they were written.
#[derive(Drop)]
pub struct Archived {
    /// Its postings.
    pub posted: Posted,
    /// Its archived taps.
    pub taps: Vec<TapRow>,
    /// Its archived corrections.
    pub fixes: Vec<FixRow>,
}

/// Posts a quote, and tells whether its posting is new.
pub(crate) fn post(posted: &mut Posted, quote: &Quote) -> Result<(Posting, bool), PostFault>
    ensures { IsPostedNewOrKept result posted.old posted.new quote.now }
{
    let before = posted.as_slice().len();
    let given = posted.post(quote)?;
    let is_new = before < posted.as_slice().len();
    Ok((given, is_new))
}

/// Adds the rows of taps. An `Err` is out of memory.
fn add_tap_rows(rows: &mut Vec<TapRow>, taps: &[Tap]) -> Result<(), AllocError>
    ensures { OnOk result (rows.new.items ≡ rows.old.items ++ map tap_row taps.now) }
{
    for tap in taps {
        rows.push(tap_row(tap))?;
    }
    Ok(())
}

/// Adds the rows of corrections. An `Err` is out of memory.
fn add_fix_rows(rows: &mut Vec<FixRow>, fixes: &[Fix]) -> Result<(), AllocError>
    ensures { OnOk result (rows.new.items ≡ rows.old.items ++ map fix_row fixes.now) }
{
    for fix in fixes {
        rows.push(fix_row(fix))?;
    }
    Ok(())
}

impl Archived {
    /// Adds the rows of taps and corrections. An `Err` is out of memory.
    pub(crate) fn add_rows(&mut self, taps: &[Tap], fixes: &[Fix]) -> Result<(), AllocError>
        ensures { OnOk result (parts self.new ≡ record { postings = self.old.posted; taps = self.old.taps.items ++ map tap_row taps.now; fixes = self.old.fixes.items ++ map fix_row fixes.now }) }
    {
        add_tap_rows(&mut self.taps, taps)?;
        add_fix_rows(&mut self.fixes, fixes)
    }
}
