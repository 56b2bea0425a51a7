//! The last posting that is noted beside a journal, as a file.

use crate::errors::memory_or;
use crate::journal::{is_new_ledger, refuse_ledger_at};
use crate::kept::{replace, text_at};
use pay_jobs::{
    Alter, Fault, FileFault, LastPosting, Ledger, posting_of_text, take_noted, text_of_posting,
};
use std::fs::{File, Files};
use std::io;
use std::io::ErrorKind;

/// The posting that is noted beside a journal: the last one that was made by a close of its sessions.
#[derive(Drop)]
pub struct NotedPosting {
    /// The path of its file.
    path: String,
    /// The posting that stands there, if one does.
    there: Option<LastPosting>,
}

impl NotedPosting {
    /// What is noted at a path.
    pub fn read<R: Files + AllocGlobal>(rt: &R, path: String) -> Result<NotedPosting, Fault> {
        let text = match text_at(rt, path.as_str()) {
            Ok(text) => text,
            Err(error) => {
                let fault = Fault::File(FileFault::CannotReadLastPosting);
                return Err(memory_or(&error, fault));
            }
        };
        let there = match text {
            Some(text) => match posting_of_text(rt.alloc(), text.as_str())? {
                Some(posting) => Some(posting),
                None => return Err(Fault::File(FileFault::CannotReadLastPosting)),
            },
            None => None,
        };
        Ok(NotedPosting { path, there })
    }

    /// The posting that is noted, if one is.
    pub fn posting(&self) -> Option<&LastPosting> {
        self.there.as_ref()
    }

    /// Refuses a ledger in the place of the note, and one that is not made yet where a posting is noted.
    pub fn refuse_ledger<R: Files + AllocGlobal>(&self, rt: &R, ledger: &str) -> Result<(), Fault> {
        refuse_ledger_at(rt, ledger, self.path.as_str())?;
        if self.there.is_some() && is_new_ledger(rt, ledger) {
            return Err(Fault::File(FileFault::NewLedger));
        }
        Ok(())
    }

    /// That a ledger has the posting that is noted, if one is.
    pub fn is_in<S: Alter>(&self, ledger: &mut Ledger<S>) -> Result<(), Fault> {
        match &self.there {
            Some(posting) => take_noted(ledger, posting),
            None => Ok(()),
        }
    }

    /// Notes a posting, unless it is noted.
    pub fn note<R: Files<File = File> + AllocGlobal>(
        &mut self,
        rt: &R,
        posting: LastPosting,
    ) -> io::Result<()> {
        if self.there == Some(posting) {
            return Ok(());
        }
        let text = text_of_posting(rt.alloc(), &posting)?;
        replace(rt, self.path.as_str(), text.as_str())?;
        self.there = Some(posting);
        Ok(())
    }

    /// Where it is noted.
    pub fn path(&self) -> &str {
        self.path.as_str()
    }
}
