//! The job `settle`, over what was read of the ledgers.
ghost use Rattle.std.specs.Prelude.{◌≡◌, ◌++◌, ◌∷◌, [], ℕ, length, List, IfErr, IfOk, OnOk};
ghost use Rattle.std.specs.List.{AllByRecursion};
ghost use Rattle.pay_rules.specs.declared.posting.Posting.{Posting};
ghost use Rattle.pay_settle.specs.Ledgers.{accounts_in, IsReportOf, IsWhyNotSettled, postings_in};
ghost use Rattle.pay_settle.specs.Refused.{IsWhyShared};
ghost use Rattle.pay_settle.specs.Settled.{AreSumsOf, IsWhyNotOne};
ghost use Rattle.pay_settle.specs.Standing.{AreApart, AreHomesOf};
ghost use Rattle.pay_settle.specs.Sums.{AddsUp};

use crate::fault::SettleFault;
use crate::homes::Homes;
use crate::settlement::Settlement;
use crate::text::report;
use pay_rules::Posting;
use std::alloc::Global;

/// What was read of a ledger.
#[derive(Drop)]
pub struct ReadLedger {
    /// The accounts of its postings, its archived taps and its archived corrections, in any order.
    pub accounts: Vec<u32>,
    /// Its postings.
    pub postings: Vec<Posting>,
}

/// Puts in where the accounts of a ledger stand, which is at a place after those before it.
fn put_ledger(homes: &mut Homes, place: usize, ledger: &ReadLedger) -> Result<(), SettleFault>
    ensures ok { (ledgers : List (List ℕ)) → place ≡ length ledgers → AreHomesOf ledgers homes.old → OnOk result (AreHomesOf (ledgers ++ ledger.now.accounts.items ∷ []) homes.new) }
    ensures refused { (ledgers : List (List ℕ)) → place ≡ length ledgers → AreHomesOf ledgers homes.old → IfErr result (IsWhyShared (ledgers ++ ledger.now.accounts.items ∷ [])) }
{
    homes.add(place, &ledger.accounts)
}

/// Refuses ledgers where an account stands in two of them.
fn refuse_shared(alloc: Global, ledgers: &[ReadLedger]) -> Result<(), SettleFault>
    ensures apart { OnOk result (AreApart (accounts_in ledgers.now)) }
    ensures refused { IfErr result (IsWhyShared (accounts_in ledgers.now)) }
{
    let mut homes = Homes::new(alloc);
    for place in 0..ledgers.len() {
        put_ledger(&mut homes, place, &ledgers[place])?;
    }
    Ok(())
}

/// Adds the postings of a ledger.
fn add_ledger(sums: &mut Settlement, ledger: &ReadLedger) -> Result<(), SettleFault>
    ensures sums { (list : List Posting) → AreSumsOf list sums.old → OnOk result (AreSumsOf (list ++ ledger.now.postings.items) sums.new) }
    ensures adds_up { OnOk result (AllByRecursion AddsUp ledger.now.postings.items) }
    ensures refused { (list : List Posting) → AreSumsOf list sums.old → IfErr result (IsWhyNotOne list ledger.now.postings.items) }
{
    sums.add_all(&ledger.postings)
}

/// What the postings of all ledgers come to.
fn sums_of(alloc: Global, ledgers: &[ReadLedger]) -> Result<Settlement, SettleFault>
    ensures sums { IfOk result (AreSumsOf (postings_in ledgers.now)) }
    ensures adds_up { OnOk result (AllByRecursion AddsUp (postings_in ledgers.now)) }
    ensures refused { IfErr result (IsWhyNotOne [] (postings_in ledgers.now)) }
{
    let mut sums = Settlement::new(alloc);
    for ledger in ledgers {
        add_ledger(&mut sums, ledger)?;
    }
    Ok(sums)
}

/// One report over ledgers, none of which shares an account with another: what each operator is owed in all, what was charged for each
/// week less what was given back, and for each account and week. An account that stands in two of them is refused, and told beside both.
pub fn settle(alloc: Global, ledgers: &[ReadLedger]) -> Result<Vec<u8>, SettleFault>
    ensures report { IfOk result (λ text. IsReportOf ledgers.now text.items) }
    ensures refused { IfErr result (IsWhyNotSettled ledgers.now) }
{
    refuse_shared(alloc, ledgers)?;
    let sums = sums_of(alloc, ledgers)?;
    Ok(report(alloc, &sums)?)
}
