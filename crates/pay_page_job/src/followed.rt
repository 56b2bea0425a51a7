//! Journals that are followed.
ghost use Rattle.std.specs.Prelude.{◌≡◌, ◌<◌, ◌++◌, ◌∷◌, length, map as each, replicate, vec_items, [], IfOk, IfErr, OnErr};
ghost use Rattle.std.specs.String.{string_bytes};
ghost use Rattle.pay_account_lines.specs.Words.{own_lines, IsRefused};
ghost use Rattle.pay_day.specs.Words.{IsDay};
ghost use Rattle.pay_explain_job.specs.Accounts.{given};
ghost use Rattle.pay_explain_job.specs.Corrections.{IsChoice, IsOwed};
ghost use Rattle.pay_explain_job.specs.Explain.{IsNotExplained};
ghost use Rattle.pay_explain_job.specs.OwnLines.{own_given};
ghost use Rattle.pay_explain_job.specs.Pages.{beside, IsJson, IsPaged};
ghost use Rattle.pay_page_job.specs.Followed.{query_of, IsReadOn};
ghost use Rattle.pay_web.specs.Words.{IsAsked};

use pay_account_lines::{AccountLines, LineFault};
use pay_explain_job::{choice_by_texts, json_by_texts, owed_by_texts, page_by_texts};
use pay_fix_page::Owed;
use pay_jobs::Fault;
use pay_page::Posted;
use pay_web::Asked;
use std::alloc::{AllocError, Global};

/// Of journals all whole lines that were read so far.
#[derive(Drop)]
pub(crate) struct Followed {
    alloc: Global,
    journals: Vec<AccountLines>,
}

impl Followed {
    /// So many journals of which nothing was read.
    pub fn new(alloc: Global, count: usize) -> Result<Followed, AllocError>
        ensures { IfOk result (λ it. it.journals.items ≡ replicate count []) }
    {
        let mut journals: Vec<AccountLines> = Vec::new(alloc);
        for _ in 0..count {
            journals.push(AccountLines::new(alloc))?;
        }
        Ok(Followed { alloc, journals })
    }

    /// What memory is taken from.
    pub fn alloc(&self) -> Global {
        self.alloc
    }

    /// How many journals there are.
    pub fn count(&self) -> usize
        ensures { result ≡ length self.now.journals.items }
    {
        self.journals.len()
    }

    /// Reads a journal on: what stands there after all that was read of it. The answer is how many bytes were taken, up to its last
    /// newline: it is read on from there. On an `Err` all is as before.
    pub fn read_on(&mut self, journal: usize, text: &[u8]) -> Result<usize, LineFault>
        requires { journal < length self.old.journals.items }
        ensures read { IfOk result (IsReadOn self.old.journals.items self.new.journals.items journal text.now) }
        ensures refused { IfErr result (IsRefused text.now) }
        ensures kept { OnErr result (self.new.journals.items ≡ self.old.journals.items) }
    {
        self.journals[journal].add(text)
    }

    /// The page of what is asked for, by a fare file, a zone, and the account's own lines. A line that is not accepted is told by the
    /// number of its journal, from 0 on, and its own among the account's. It links to corrections where accounts may be corrected, and that of
    /// a week tells what was posted for it.
    pub fn page(
        &self,
        fares: &str,
        zone: &str,
        asked: Asked,
        corrects: bool,
        posted: &Posted,
    ) -> Result<String, Fault>
        requires { IsDay asked.day }
        ensures page { IfOk result (λ text. IsPaged (own_given fares.now zone.now asked.account self.now.journals.items) (query_of asked) (beside corrects posted.now) (string_bytes text)) }
        ensures fails { IfErr result (IsNotExplained (given fares.now zone.now (each (own_lines asked.account) self.now.journals.items))) }
    {
        let Asked { account, day, week } = asked;
        let texts = self.own_texts(account)?;
        page_by_texts(
            self.alloc,
            fares,
            zone,
            texts.as_slice(),
            account,
            day,
            week,
            corrects,
            posted,
        )
    }

    /// The same for programs.
    pub fn json(
        &self,
        fares: &str,
        zone: &str,
        asked: Asked,
        posted: &Posted,
    ) -> Result<String, Fault>
        requires { IsDay asked.day }
        ensures json { IfOk result (λ text. IsJson (own_given fares.now zone.now asked.account self.now.journals.items) (query_of asked) posted.now (string_bytes text)) }
        ensures fails { IfErr result (IsNotExplained (given fares.now zone.now (each (own_lines asked.account) self.now.journals.items))) }
    {
        let Asked { account, day, week } = asked;
        let texts = self.own_texts(account)?;
        json_by_texts(
            self.alloc,
            fares,
            zone,
            texts.as_slice(),
            account,
            day,
            week,
            posted,
        )
    }

    /// Of each journal the lines of an account, and then another text.
    fn own_texts_and(&self, account: u32, text: &[u8]) -> Result<Vec<Vec<u8>>, AllocError>
        ensures { IfOk result (λ texts. each vec_items texts.items ≡ each (own_lines account) self.now.journals.items ++ text.now ∷ []) }
    {
        let mut texts = self.own_texts(account)?;
        let more = Vec::from_slice(self.alloc, text)?;
        texts.push(more)?;
        Ok(texts)
    }

    /// Of each journal the lines of an account.
    fn own_texts(&self, account: u32) -> Result<Vec<Vec<u8>>, AllocError>
        ensures { IfOk result (λ texts. each vec_items texts.items ≡ each (own_lines account) self.now.journals.items) }
    {
        let mut texts: Vec<Vec<u8>> = Vec::new(self.alloc);
        for place in 0..self.journals.len() {
            texts.push(self.journals[place].of(account)?)?;
        }
        Ok(texts)
    }

    /// The page of what can be corrected of an account, likewise.
    pub fn choice(&self, fares: &str, zone: &str, asked: Asked) -> Result<String, Fault>
        requires { IsDay asked.day }
        ensures page { IfOk result (λ text. IsChoice (given fares.now zone.now (each (own_lines asked.account) self.now.journals.items)) asked.account asked.day (string_bytes text)) }
        ensures fails { IfErr result (IsNotExplained (given fares.now zone.now (each (own_lines asked.account) self.now.journals.items))) }
    {
        let Asked { account, day, .. } = asked;
        let texts = self.own_texts(account)?;
        choice_by_texts(self.alloc, fares, zone, texts.as_slice(), account, day)
    }

    /// What is owed of an account's day and its week through that day, by its own lines.
    pub fn owed(&self, fares: &str, zone: &str, asked: Asked) -> Result<Owed, Fault>
        requires { IsAsked asked }
        ensures owed { IfOk result (IsOwed (given fares.now zone.now (each (own_lines asked.account) self.now.journals.items)) asked.account asked.day) }
        ensures fails { IfErr result (IsNotExplained (given fares.now zone.now (each (own_lines asked.account) self.now.journals.items))) }
    {
        let Asked { account, day, .. } = asked;
        let texts = self.own_texts(account)?;
        owed_by_texts(self.alloc, fares, zone, texts.as_slice(), account, day)
    }

    /// The same by these and then a text more.
    pub fn owed_with(
        &self,
        fares: &str,
        zone: &str,
        asked: Asked,
        text: &[u8],
    ) -> Result<Owed, Fault>
        requires { IsAsked asked }
        ensures owed { IfOk result (IsOwed (given fares.now zone.now (each (own_lines asked.account) self.now.journals.items ++ text.now ∷ [])) asked.account asked.day) }
        ensures fails { IfErr result (IsNotExplained (given fares.now zone.now (each (own_lines asked.account) self.now.journals.items ++ text.now ∷ []))) }
    {
        let Asked { account, day, .. } = asked;
        let texts = self.own_texts_and(account, text)?;
        owed_by_texts(self.alloc, fares, zone, texts.as_slice(), account, day)
    }
}
