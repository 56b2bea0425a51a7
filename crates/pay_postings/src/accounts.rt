ghost use Rattle.std.specs.Prelude.{◌≡◌, ◌<◌, [], ◌∷◌, length, Some, None, Err, IfSome, IfNone, OnOk, OnErr};
ghost use Rattle.std.specs.FinMap as map;
ghost use Rattle.std.specs.Option.{option_map};
ghost use Rattle.pay_rules.specs.declared.post_fault.PostFault.TheVariants.{BadArchive};
ghost use Rattle.pay_postings.specs.Postings.{post_each};
ghost use Rattle.pay_postings.specs.Archive.{archived_sets};
ghost use Rattle.pay_postings.specs.Ledger.{LedgerParts, posted};
ghost use Rattle.pay_postings.specs.Archived.{parts};
ghost use Rattle.pay_postings.specs.Batches.{Agrees, Covers, AreThere, lists, IsBatchFor, AreQuotesPosted, AreSetsPosted};
ghost use Rattle.pay_postings.specs.Judged.{IsVerdict, IsQuoteJudged, IsSetJudged};

use crate::archived::{Archived, post};
use crate::batch::PostingBatch;
use crate::judging::{are_own, judge_quote, judge_set, looked_at};
use crate::new_rows::{new_fixes, new_taps};
use pay_rules::{PostFault, Quote, Sets};
use std::alloc::{AllocError, Global};
use std::collections::BTreeMap;
use std::marker::Model;

/// What a ledger has of some accounts. In a contract it is the finite map from their numbers.
#[derive(Drop)]
pub struct LedgerAccounts {
    archived: BTreeMap<u32, Archived>,
}

impl Model for LedgerAccounts {
    ghost use Rattle.pay_postings.specs.Archived.{AccountsParts, accounts_code, accounts_of};

    ghost Value = { AccountsParts };

    ghost coded = { accounts_code };

    ghost view = { λ a. accounts_of a.archived.entries };
}

impl LedgerAccounts {
    /// No accounts.
    pub fn new(alloc: Global) -> LedgerAccounts
        ensures { result ≡ map.empty }
    {
        LedgerAccounts {
            archived: BTreeMap::new(alloc),
        }
    }

    /// Whether an account is there.
    pub fn has(&self, account: u32) -> bool
        ensures { result ≡ map.contains_key self.now account }
    {
        self.archived.contains_key(&account)
    }

    /// Adds what a ledger has of an account, in the place of what was there. An `Err` is out of memory, and all is as
    /// before.
    pub fn add(&mut self, account: u32, archived: Archived) -> Result<(), AllocError>
        ensures ok { OnOk result (self.new ≡ map.insert self.old account (parts archived)) }
        ensures err { OnErr result (self.new ≡ self.old) }
    {
        self.archived.insert(account, archived)?;
        Ok(())
    }

    /// What a ledger has of an account.
    fn of(&self, account: u32) -> Option<&Archived>
        ensures { option_map (λ a. parts a.now) result ≡ map.get self.now account }
    {
        self.archived.get(&account)
    }

    /// Takes an account out.
    fn take(&mut self, account: u32) -> Option<Archived>
        ensures some { IfSome result (λ archived. map.get self.old account ≡ Some (parts archived)) }
        ensures none { IfNone result (map.get self.old account ≡ None) }
        ensures others { self.new ≡ map.remove self.old account }
    {
        self.archived.remove(&account)
    }

    /// Judges the quote at a place after those before it, none of which is of an account above the highest. So those of its own
    /// are looked for only where there may be some.
    fn judge_quote(&self, quotes: &[Quote], place: usize, highest: u32) -> Result<bool, PostFault>
        requires { place < length quotes.now }
        ensures judged { IsQuoteJudged result self.now quotes.now place highest }
        ensures never_bad { Covers self.now quotes.now [] → result ≡ Err BadArchive → ⊥ }
    {
        let quote = &quotes[place];
        let Some(archived) = self.of(quote.account()) else {
            return Err(PostFault::BadArchive);
        };
        let before = &quotes[..looked_at(highest, quote.account(), place)];
        judge_quote(&archived.posted, before, quote)
    }

    /// Judges quotes one after another.
    fn judge_quotes(&self, quotes: &[Quote]) -> Result<(), PostFault>
        ensures judged { (ledger : LedgerParts) → Agrees self.now ledger → Covers self.now quotes.now [] → IsVerdict result (post_each ledger.postings quotes.now) }
        ensures never_bad { Covers self.now quotes.now [] → result ≡ Err BadArchive → ⊥ }
    {
        let mut highest = 0;
        for place in 0..quotes.len() {
            self.judge_quote(quotes, place, highest)?;
            highest = highest.max(quotes[place].account());
        }
        Ok(())
    }

    /// Judges the set at a place after those before it, likewise.
    fn judge_set(&self, sets: &[Sets], place: usize, highest: u32) -> Result<(), PostFault>
        requires { place < length sets.now }
        ensures judged { IsSetJudged result self.now sets.now place highest }
        ensures never_bad { Covers self.now [] sets.now → result ≡ Err BadArchive → ⊥ }
    {
        let set = &sets[place];
        let Some(archived) = self.of(set.account()) else {
            return Err(PostFault::BadArchive);
        };
        are_own(set);
        pay_set_rows::laws::same_row();
        let before = &sets[..looked_at(highest, set.account(), place)];
        judge_set(archived, before, set)
    }

    /// Judges sets one after another.
    fn judge_sets(&self, sets: &[Sets]) -> Result<(), PostFault>
        ensures judged { (ledger : LedgerParts) → Agrees self.now ledger → Covers self.now [] sets.now → IsVerdict result (archived_sets (ledger.taps, ledger.fixes) sets.now) }
        ensures never_bad { Covers self.now [] sets.now → result ≡ Err BadArchive → ⊥ }
    {
        let mut highest = 0;
        for place in 0..sets.len() {
            self.judge_set(sets, place, highest)?;
            let set = &sets[place];
            are_own(set);
            highest = highest.max(set.account());
        }
        Ok(())
    }

    /// Judges quotes and then sets, before any room is made for what they add.
    fn judge(&self, quotes: &[Quote], sets: &[Sets]) -> Result<(), PostFault>
        ensures judged { (ledger : LedgerParts) → Agrees self.now ledger → Covers self.now quotes.now sets.now → IsVerdict result (posted ledger quotes.now sets.now) }
        ensures never_bad { Covers self.now quotes.now sets.now → result ≡ Err BadArchive → ⊥ }
    {
        self.judge_quotes(quotes)?;
        self.judge_sets(sets)
    }

    /// Posts a quote after a batch.
    fn post_quote(&mut self, batch: &mut PostingBatch, quote: &Quote) -> Result<(), PostFault>
        ensures posted { AreQuotesPosted result self.old self.new (lists batch.old) (lists batch.new) (quote.now ∷ []) }
        ensures same { OnOk result (AreThere self.old self.new) }
        ensures never_bad { Covers self.old (quote.now ∷ []) [] → result ≡ Err BadArchive → ⊥ }
    {
        let Some(mut archived) = self.take(quote.account()) else {
            return Err(PostFault::BadArchive);
        };
        let (given, is_new) = post(&mut archived.posted, quote)?;
        batch.add_posting(given, is_new)?;
        self.add(quote.account(), archived)?;
        Ok(())
    }

    /// Posts quotes after a batch, one after another.
    fn post_quotes(&mut self, batch: &mut PostingBatch, quotes: &[Quote]) -> Result<(), PostFault>
        ensures posted { AreQuotesPosted result self.old self.new (lists batch.old) (lists batch.new) quotes.now }
        ensures same { OnOk result (AreThere self.old self.new) }
        ensures never_bad { Covers self.old quotes.now [] → result ≡ Err BadArchive → ⊥ }
    {
        for quote in quotes {
            self.post_quote(batch, quote)?;
        }
        Ok(())
    }

    /// Archives a set after a batch.
    fn archive_set(
        &mut self,
        alloc: Global,
        batch: &mut PostingBatch,
        set: &Sets,
    ) -> Result<(), PostFault>
        ensures posted { AreSetsPosted result self.old self.new (lists batch.old) (lists batch.new) (set.now ∷ []) }
        ensures same { OnOk result (AreThere self.old self.new) }
        ensures never_bad { Covers self.old [] (set.now ∷ []) → result ≡ Err BadArchive → ⊥ }
    {
        let Some(mut archived) = self.take(set.account()) else {
            return Err(PostFault::BadArchive);
        };
        pay_set_rows::laws::same_row();
        let taps = new_taps(alloc, &archived.taps, set.taps())?;
        let fixes = new_fixes(alloc, &archived.fixes, set.fixes())?;
        archived.add_rows(&taps, &fixes)?;
        batch.add_set(&taps, &fixes)?;
        self.add(set.account(), archived)?;
        Ok(())
    }

    /// Archives sets after a batch, one after another.
    fn archive_sets(
        &mut self,
        alloc: Global,
        batch: &mut PostingBatch,
        sets: &[Sets],
    ) -> Result<(), PostFault>
        ensures posted { AreSetsPosted result self.old self.new (lists batch.old) (lists batch.new) sets.now }
        ensures same { OnOk result (AreThere self.old self.new) }
        ensures never_bad { Covers self.old [] sets.now → result ≡ Err BadArchive → ⊥ }
    {
        for set in sets {
            self.archive_set(alloc, batch, set)?;
        }
        Ok(())
    }

    /// Posts quotes one after another, and then archives sets one after another, by what is there of their accounts:
    /// what is to be written to the ledger for it. All of them are judged before any room is made, so memory is wanting
    /// only for what is posted. `BadArchive` comes only where an account is not there, and nothing else is said of the
    /// answer then. The accounts are used up.
    pub fn post(
        &mut self,
        alloc: Global,
        quotes: &[Quote],
        sets: &[Sets],
    ) -> Result<PostingBatch, PostFault>
        ensures batch { (ledger : LedgerParts) → Agrees self.old ledger → Covers self.old quotes.now sets.now → IsBatchFor result ledger quotes.now sets.now }
        ensures never_bad { Covers self.old quotes.now sets.now → result ≡ Err BadArchive → ⊥ }
    {
        self.judge(quotes, sets)?;
        let mut batch = PostingBatch::new(alloc);
        self.post_quotes(&mut batch, quotes)?;
        self.archive_sets(alloc, &mut batch, sets)?;
        Ok(batch)
    }
}
