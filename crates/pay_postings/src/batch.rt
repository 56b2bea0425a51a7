ghost use Rattle.std.specs.Prelude.{◌≡◌, [], OnOk};
ghost use Rattle.pay_postings.specs.Batches.{lists, with_given, with_new_of_set};

use pay_rules::{Fix, Posting, Tap};
use std::alloc::{AllocError, Global};

/// What is to be written to a ledger, in order, and the posting that answers each quote.
#[derive(Drop)]
pub struct PostingBatch {
    /// The posting of each quote, which may be one that the ledger had.
    pub given: Vec<Posting>,
    /// The new postings.
    pub postings: Vec<Posting>,
    /// The new taps.
    pub taps: Vec<Tap>,
    /// The new corrections.
    pub fixes: Vec<Fix>,
}

impl PostingBatch {
    /// Nothing is to be written.
    pub(crate) fn new(alloc: Global) -> PostingBatch
        ensures { lists result ≡ record { given = []; postings = []; taps = []; fixes = [] } }
    {
        PostingBatch {
            given: Vec::new(alloc),
            postings: Vec::new(alloc),
            taps: Vec::new(alloc),
            fixes: Vec::new(alloc),
        }
    }

    /// Adds the posting of a quote, which is to be written if it is new. An `Err` is out of memory.
    pub(crate) fn add_posting(&mut self, given: Posting, is_new: bool) -> Result<(), AllocError>
        ensures { OnOk result (lists self.new ≡ with_given is_new given (lists self.old)) }
    {
        if is_new {
            self.postings.push(given.clone()?)?;
        }
        self.given.push(given)?;
        Ok(())
    }

    /// Adds new taps and corrections. An `Err` is out of memory.
    pub(crate) fn add_set(&mut self, taps: &[Tap], fixes: &[Fix]) -> Result<(), AllocError>
        ensures { OnOk result (lists self.new ≡ with_new_of_set taps.now fixes.now (lists self.old)) }
    {
        self.taps.extend_from_slice(taps)?;
        self.fixes.extend_from_slice(fixes)?;
        Ok(())
    }
}
