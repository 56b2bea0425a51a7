ghost use Rattle.std.specs.Prelude.{◌≡◌, ◌≢◌, true, false, List, Some, Ok, map as each, IfNone, IfSome, IfOk, IfErr};
ghost use Rattle.std.specs.List.{IsDistinct};
ghost use Rattle.std.specs.List.Sorted.{IsStrictlySortedBy};
ghost use Rattle.std.specs.Ordering.{nat_cmp, eq_by_cmp};
ghost use Rattle.pay_rules.specs.declared.posting.Posting.{Posting};
ghost use Rattle.pay_postings.specs.Words.{posted, postings_of, net};
ghost use Rattle.pay_rules.specs.declared.post_fault.PostFault.TheVariants.{BadArchive};
ghost use Rattle.pay_rules.specs.State.{ArePriced};
ghost use Rattle.pay_restore.specs.Words.{restored};
ghost use Rattle.pay_records.specs.Words.{OnCleanDisk, LeavesAsBeforeOr, LeavesAsBefore, Answers, IsFree};
ghost use Rattle.pay_ledger.specs.Opening.{HasNoView, IsWhy, IsOpened, BlankJustGrows, MayLeaveOpened};
ghost use Rattle.pay_ledger.specs.Steps.{IsOnDisk, IsRefused, Posts, MayLeave};
ghost use Rattle.pay_ledger.specs.Last.{IsHad, has_row, newest_in};
ghost use Rattle.pay_ledger.specs.Examined.{AllPass, AllPassRows, PassBefore, PassRowsBefore, IsFoundIn, IsFoundInRows};
ghost use Rattle.pay_ledger.specs.BadRows.{ReadsAs, net_said, asked};
ghost use Rattle.pay_ledger.specs.Calls.{ChangesNothing, ChangesNothingIfRefused, AnswersOfLedger, AnswersOfRows, AnswersOfReadable, RefusesOfRows, FailsByStoreAlone, FailsByStoreAloneOfRows, RefusesAsDefined, RefusesOpenAlone, RefusesBadRows, RefusesBadAmounts, RefusesBadRowsFirst, AreAccountsOf, RestoresRows, RestoresLedger};

use crate::crashes::settled;
use crate::examining::{Examiner, examine};
use crate::fault::{LedgerFault, OpenFault};
use crate::last::LastPosting;
use crate::lookup::{Archive, archive_of, has_row, net_of, newest, of_week, posted_of};
use crate::opening::prepare;
use crate::post::post;
use pay_restore::{Editions, Fares, restored};
use pay_rules::{Posting, Postings, Quote, Sets};
use sqlite::{Alter, Connection};
use std::alloc::Global;
use std::marker::Model;

/// The ledger: what was posted, and the archive of what it was priced by. In a contract it is what its connection holds.
#[derive(Drop)]
pub struct Ledger<S: Alter> {
    alloc: Global,
    conn: Connection<S>,
    last: Option<LastPosting>,
}

impl<S: Alter> Model for Ledger<S> {
    ghost use Rattle.std.specs.Prelude.{◌≡◌, false};
    ghost use Rattle.sqlite.specs.Held.{Held, held_code};

    ghost Value = { Held S };

    ghost coded = { held_code S.code };

    ghost view = { λ l. l.conn };

    ghost invariant = { λ l. l.conn.in_transaction ≡ false };
}

/// The accounts of what is archived. No call of the database is made for them, so that no fault is the store's.
fn accounts_of<F: Fares>(
    alloc: Global,
    editions: &Editions,
    archive: &Archive,
) -> Result<Vec<F>, LedgerFault>
    ensures answer { AreAccountsOf result (restored editions.now archive.now.taps.items archive.now.fixes.items) (λ accounts. each (λ a. (F.account a, F.accepted a)) accounts.items) }
    ensures own { IfErr result (λ fault. fault ≢ LedgerFault.Store) }
    ensures ascending { IfOk result (λ accounts. IsStrictlySortedBy nat_cmp (each F.account accounts.items)) }
    ensures distinct { IfOk result (λ accounts. IsDistinct (eq_by_cmp nat_cmp) (each F.account accounts.items)) }
    ensures priced { IfOk result (λ accounts. ArePriced F.account (F.IsPricedBy editions.now) accounts.items) }
{
    Ok(restored(alloc, editions, &archive.taps, &archive.fixes)?)
}

impl<S: Alter> Ledger<S> {
    /// Opens a database as a ledger, which is made where none of its tables is there. One of version 1 becomes one of version 2, in one
    /// transaction: its postings and shares are copied, with their numbers and edition 0, and stay in its own tables, which are not read
    /// again. A fault gives the connection back.
    pub fn open(
        alloc: Global,
        mut conn: Connection<S>,
    ) -> Result<Ledger<S>, (OpenFault, Connection<S>)>
        requires { conn.in_transaction ≡ false }
        ensures opened { IfOk result (λ ledger. OnCleanDisk S.Store conn ledger IsOpened) }
        ensures grows { IfOk result (λ ledger. OnCleanDisk S.Store conn ledger (λ old new. BlankJustGrows old.now new.now)) }
        ensures lasts { IfOk result (λ ledger. OnCleanDisk S.Store conn ledger (λ _ new. IsOnDisk new)) }
        ensures no_view { IfOk result (λ ledger. OnCleanDisk S.Store conn ledger (λ old _. HasNoView old.now)) }
        ensures refused { IfErr result (λ e. OnCleanDisk S.Store conn e.1 (λ old _. IsWhy e.0 old.now)) }
        ensures of_blank { IfErr result (λ e. OnCleanDisk S.Store conn e.1 (λ old _. IsFree old.now → e.0 ≡ OpenFault.Store)) }
        ensures unchanged { IfErr result (λ e. ChangesNothing S.Store conn e.1) }
        ensures autocommit { IfErr result (λ e. e.1.in_transaction ≡ false) }
        ensures survives { IfOk result (λ ledger. LeavesAsBeforeOr S.Store conn ledger MayLeaveOpened) }
        ensures survives_err { IfErr result (λ e. LeavesAsBeforeOr S.Store conn e.1 MayLeaveOpened) }
    {
        match prepare(&mut conn) {
            Ok(()) => {
                settled(&conn);
                Ok(Ledger {
                    alloc,
                    conn,
                    last: None,
                })
            }
            Err(fault) => Err((fault, conn)),
        }
    }

    /// Posts quotes one after another, and then archives sets, all of it or nothing: the posting of each quote.
    pub fn post(&mut self, quotes: &[Quote], sets: &[Sets]) -> Result<Vec<Posting>, LedgerFault>
        ensures posts { Answers S.Store self.old self.new result (λ old new given. Posts old new quotes.now sets.now given.items) }
        ensures refused { RefusesAsDefined S.Store self.old self.new result (λ ledger. posted ledger quotes.now sets.now) }
        // Over whatever rows: 45 comes before 42, 46 and 47, and nothing is posted beside bad rows of an account that is quoted or in
        // the sets.
        ensures read { AnswersOfReadable S.Store self.old self.new result (asked quotes.now sets.now) }
        ensures bad_first { RefusesBadRowsFirst S.Store self.old self.new result (asked quotes.now sets.now) }
        ensures of_open { RefusesOpenAlone S.Store self.old self.new result }
        ensures unchanged { ChangesNothingIfRefused S.Store self.old self.new result }
        ensures survives { LeavesAsBeforeOr S.Store self.old self.new (λ old. MayLeave old quotes.now sets.now) }
    {
        post(self.alloc, &mut self.conn, quotes, sets, &mut self.last)
    }

    /// The last posting that was made since the ledger was opened.
    pub fn last_posting(&self) -> Option<LastPosting> {
        self.last
    }

    /// The postings of an account and a week, which its Monday names, in the order in which they were posted.
    pub fn postings(&mut self, account: u32, week: u32) -> Result<Postings, LedgerFault>
        ensures told { AnswersOfLedger S.Store self.old self.new result (λ ledger list. list ≡ postings_of account week ledger.postings) }
        ensures never_bad { FailsByStoreAlone S.Store self.old self.new result }
        ensures read { AnswersOfRows S.Store self.old self.new result (λ rows list. (all : List Posting) × ReadsAs rows account (Some all) × (list ≡ postings_of account week all)) }
        ensures bad { RefusesBadRows S.Store self.old self.new result account }
        ensures unchanged { ChangesNothing S.Store self.old self.new }
        ensures survives { LeavesAsBefore S.Store self.old self.new }
    {
        pay_postings::laws::postings_back();
        let posted = posted_of(self.alloc, &mut self.conn, account)?;
        Ok(Postings::from(of_week(self.alloc, &posted, account, week)?))
    }

    /// Whether this posting was made: one of its account and week, through its day and for its version, and by its number, if that is
    /// known. Nothing else of its row is asked.
    pub fn has(&mut self, posting: &LastPosting) -> Result<bool, LedgerFault>
        ensures told { AnswersOfRows S.Store self.old self.new result (λ rows has. has ≡ has_row posting.now rows) }
        ensures of_ledger { AnswersOfLedger S.Store self.old self.new result (λ ledger has. IsHad posting.now ledger.postings has) }
        ensures never_bad { FailsByStoreAloneOfRows S.Store self.old self.new result }
        ensures unchanged { ChangesNothing S.Store self.old self.new }
        ensures survives { LeavesAsBefore S.Store self.old self.new }
    {
        has_row(self.alloc, &mut self.conn, posting)
    }

    /// The posting of the greatest number, by its row, if there is a posting. `BadArchive` where its quote has a number that is below 0 or
    /// has more than 32 bits.
    pub fn newest_posting(&mut self) -> Result<Option<LastPosting>, LedgerFault>
        ensures told { AnswersOfRows S.Store self.old self.new result (λ rows newest. newest_in rows ≡ Ok newest) }
        // So a ledger has the posting that is noted of it.
        ensures there { AnswersOfRows S.Store self.old self.new result (λ rows newest. IfSome newest (λ last. has_row last rows ≡ true)) }
        ensures refused { RefusesOfRows S.Store self.old self.new result (λ rows fault. IsRefused fault (newest_in rows)) }
        ensures unchanged { ChangesNothing S.Store self.old self.new }
        ensures survives { LeavesAsBefore S.Store self.old self.new }
    {
        newest(self.alloc, &mut self.conn)
    }

    /// What an account was charged for a week less what it was given back, in pence: the sum of the amounts. Nothing else of
    /// its postings is asked, nor are those of other weeks or any shares: `BadArchive` where an amount of the week is no sum of
    /// money, by itself or with those before it.
    pub fn net(&mut self, account: u32, week: u32) -> Result<i64, LedgerFault>
        ensures told { AnswersOfLedger S.Store self.old self.new result (λ ledger amount. amount ≡ net account week ledger.postings) }
        ensures never_bad { FailsByStoreAlone S.Store self.old self.new result }
        ensures read { AnswersOfRows S.Store self.old self.new result (λ rows amount. net_said rows account week ≡ Some amount) }
        ensures bad { RefusesBadAmounts S.Store self.old self.new result account week }
        ensures unchanged { ChangesNothing S.Store self.old self.new }
        ensures survives { LeavesAsBefore S.Store self.old self.new }
    {
        pay_postings::laws::postings_back();
        pay_postings::laws::net_of_rows();
        net_of(self.alloc, &mut self.conn, account, week)
    }

    /// The accounts of the archive, one for each account number in it, in ascending order, priced by these tables: each has
    /// accepted just its archived taps and corrections. `BadArchive` where a row has a number out of its range, or where an
    /// account would refuse what it tells.
    pub fn restore<F: Fares>(&mut self, editions: &Editions) -> Result<Vec<F>, LedgerFault>
        ensures rows { RestoresRows S.Store self.old self.new result (restored editions.now) (λ accounts. each (λ a. (F.account a, F.accepted a)) accounts.items) }
        ensures ledger { RestoresLedger S.Store self.old self.new result (restored editions.now) (λ accounts. each (λ a. (F.account a, F.accepted a)) accounts.items) }
        // So they may be those that a shard begins with.
        ensures ascending { IfOk result (λ accounts. IsStrictlySortedBy nat_cmp (each F.account accounts.items)) }
        ensures distinct { IfOk result (λ accounts. IsDistinct (eq_by_cmp nat_cmp) (each F.account accounts.items)) }
        ensures priced { IfOk result (λ accounts. ArePriced F.account (F.IsPricedBy editions.now) accounts.items) }
        ensures unchanged { ChangesNothing S.Store self.old self.new }
        ensures survives { LeavesAsBefore S.Store self.old self.new }
    {
        let archive = archive_of(self.alloc, &mut self.conn)?;
        accounts_of(self.alloc, editions, &archive)
    }

    /// Has what there is of each account examined, in ascending order, up to one of which something is found. `BadArchive` where a
    /// row has no number of an account, or where one is no posting.
    pub fn examine<Found: Drop, E: Examiner<Found>>(
        &mut self,
        examiner: &E,
    ) -> Result<Option<(u32, Found)>, LedgerFault>
        ensures told { AnswersOfLedger S.Store self.old self.new result (λ ledger found. IfNone found (AllPass (E.Passes examiner.now) ledger)) }
        ensures finds { AnswersOfLedger S.Store self.old self.new result (λ ledger found. IfSome found (IsFoundIn (E.Finds examiner.now) ledger)) }
        ensures first { AnswersOfLedger S.Store self.old self.new result (λ ledger found. IfSome found (λ it. PassBefore (E.Passes examiner.now) ledger it.0)) }
        ensures read { AnswersOfRows S.Store self.old self.new result (λ rows found. IfNone found (AllPassRows (E.Passes examiner.now) rows)) }
        ensures found_read { AnswersOfRows S.Store self.old self.new result (λ rows found. IfSome found (IsFoundInRows (E.Finds examiner.now) rows)) }
        ensures first_read { AnswersOfRows S.Store self.old self.new result (λ rows found. IfSome found (λ it. PassRowsBefore (E.Passes examiner.now) rows it.0)) }
        ensures unchanged { ChangesNothing S.Store self.old self.new }
        ensures survives { LeavesAsBefore S.Store self.old self.new }
    {
        pay_postings::laws::postings_back();
        examine(self.alloc, &mut self.conn, examiner)
    }

    /// The connection.
    pub fn into_connection(self) -> Connection<S>
        ensures same { result ≡ self }
        ensures autocommit { result.in_transaction ≡ false }
    {
        self.conn
    }
}
