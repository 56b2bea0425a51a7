ghost use Rattle.std.specs.Prelude.{◌≡◌, ◌+ℤ◌, ◌++◌, ◌∷◌, ◌<◌, [], ℕ, pos, cond, get_or, length, List, Option, Some, IfErr, IfOk, OnOk};
ghost use Rattle.std.specs.BTreeMap as tree;
ghost use Rattle.std.specs.List.{AllByRecursion};
ghost use Rattle.std.specs.Option.{unwrap_or};
ghost use Rattle.std.specs.Ordering.{nat_cmp};
ghost use Rattle.pay_money.specs.declared.limits.TheConstants.{OPERATORS};
ghost use Rattle.pay_rules.specs.declared.posting.Posting.{Posting};
ghost use Rattle.pay_postings.specs.Words.{total, added};
ghost use Rattle.pay_settle.specs.Sums.{AddsUp, HasNoBits};
ghost use Rattle.pay_settle.specs.Settled.{AreSumsOf, IsPutIn, IsTooLarge, IsWhyNot, IsWhyNotOne, key_of, pair_cmp};

use crate::fault::SettleFault;
use pay_money::limits::OPERATORS;
use pay_rules::Posting;
use std::alloc::Global;
use std::collections::BTreeMap;

/// What postings come to, in pence.
#[derive(Drop)]
pub struct Settlement {
    /// What fell to each operator, operator 1 first: what it is owed.
    pub operators: [i128; OPERATORS],
    /// What was charged for each week less what was given back, by its Monday, counted from 1970-01-01.
    pub weeks: BTreeMap<u32, i128>,
    /// The same for each account and week.
    pub accounts: BTreeMap<(u32, u32), i128>,
    /// The same in all.
    pub total: i128,
}

/// A sum with a further amount.
fn with_amount(sum: i128, amount: i64) -> Result<i128, SettleFault>
    ensures value { IfOk result (λ it. it ≡ sum +ℤ amount) }
    ensures too_large { IfErr result (λ fault. (fault ≡ SettleFault.TooLarge) × HasNoBits (sum +ℤ amount)) }
{
    match sum.checked_add(i128::from(amount)) {
        Some(sum) => Ok(sum),
        None => Err(SettleFault::TooLarge),
    }
}

/// What fell to an operator, with a further amount.
fn with_share(
    sums: &[i128; OPERATORS],
    amounts: &[i64; OPERATORS],
    place: usize,
) -> Result<i128, SettleFault>
    requires { place < OPERATORS }
    ensures value { IfOk result (λ it. it ≡ get_or sums.now place (pos 0) +ℤ get_or amounts.now place (pos 0)) }
    ensures too_large { IfErr result (λ fault. (fault ≡ SettleFault.TooLarge) × HasNoBits (get_or sums.now place (pos 0) +ℤ get_or amounts.now place (pos 0))) }
{
    with_amount(sums[place], amounts[place])
}

/// What fell to each operator, with further amounts.
fn with_shares(
    sums: &[i128; OPERATORS],
    amounts: &[i64; OPERATORS],
) -> Result<[i128; OPERATORS], SettleFault>
    ensures value { IfOk result (λ it. it ≡ added sums.now amounts.now) }
    ensures too_large { IfErr result (λ fault. (fault ≡ SettleFault.TooLarge) × (place : ℕ) × HasNoBits (get_or (added sums.now amounts.now) place (pos 0))) }
{
    let mut further = [0; OPERATORS];
    for place in 0..OPERATORS {
        further[place] = with_share(sums, amounts, place)?;
    }
    Ok(further)
}

/// All amounts of a posting's operators together.
fn together(amounts: &[i64; OPERATORS]) -> i128
    ensures value { result ≡ total amounts.now }
    ensures operators { length amounts.now ≡ OPERATORS }
{
    let mut sum: i128 = 0;
    for amount in amounts {
        sum += i128::from(*amount);
    }
    sum
}

/// Refuses a posting of which not all fell to operators.
fn refuse_shares(posting: &Posting) -> Result<(), SettleFault>
    ensures ok { OnOk result (AddsUp posting.now) }
    ensures refused { IfErr result (λ fault. (fault ≡ SettleFault.Shares posting.now.quote.account posting.now.quote.week) × (AddsUp posting.now → ⊥)) }
{
    if together(&posting.share_amounts) == i128::from(posting.amount) {
        Ok(())
    } else {
        Err(SettleFault::Shares {
            account: posting.quote.account(),
            week: posting.quote.week(),
        })
    }
}

/// Adds a posting's amount to the sum of all.
fn put_total(total: &mut i128, posting: &Posting) -> Result<(), SettleFault>
    ensures put { OnOk result (total.new ≡ total.old +ℤ posting.now.amount) }
    ensures too_large { IfErr result (λ fault. (fault ≡ SettleFault.TooLarge) × HasNoBits (total.old +ℤ posting.now.amount)) }
{
    *total = with_amount(*total, posting.amount)?;
    Ok(())
}

/// Adds it to the sum of its week.
fn put_week(weeks: &mut BTreeMap<u32, i128>, posting: &Posting) -> Result<(), SettleFault>
    ensures put { OnOk result (IsPutIn nat_cmp weeks.old weeks.new posting.now.quote.week posting.now.amount) }
    ensures ordered { OnOk result (tree.IsOrdered nat_cmp weeks.new) }
    ensures too_large { IfErr result (λ fault. IsTooLarge fault (unwrap_or (tree.get nat_cmp weeks.old posting.now.quote.week) (pos 0) +ℤ posting.now.amount)) }
{
    let week = posting.quote.week();
    let before = weeks.get(&week).copied().unwrap_or(0);
    let sum = with_amount(before, posting.amount)?;
    match weeks.insert(week, sum) {
        Ok(_) => Ok(()),
        Err(_) => Err(SettleFault::Memory),
    }
}

/// The account and the week of a posting.
fn key_of(posting: &Posting) -> (u32, u32)
    ensures { result ≡ key_of posting.now }
{
    (posting.quote.account(), posting.quote.week())
}

/// Adds a posting's amount to the sum of a key.
fn put_sum(
    accounts: &mut BTreeMap<(u32, u32), i128>,
    key: (u32, u32),
    posting: &Posting,
) -> Result<(), SettleFault>
    ensures put { OnOk result (IsPutIn pair_cmp accounts.old accounts.new key posting.now.amount) }
    ensures ordered { OnOk result (tree.IsOrdered pair_cmp accounts.new) }
    ensures too_large { IfErr result (λ fault. IsTooLarge fault (unwrap_or (tree.get pair_cmp accounts.old key) (pos 0) +ℤ posting.now.amount)) }
{
    let before = accounts.get(&key).copied().unwrap_or(0);
    let sum = with_amount(before, posting.amount)?;
    match accounts.insert(key, sum) {
        Ok(_) => Ok(()),
        Err(_) => Err(SettleFault::Memory),
    }
}

/// Adds it to the sum of its account and week.
fn put_account(
    accounts: &mut BTreeMap<(u32, u32), i128>,
    posting: &Posting,
) -> Result<(), SettleFault>
    ensures put { OnOk result (IsPutIn pair_cmp accounts.old accounts.new (key_of posting.now) posting.now.amount) }
    ensures ordered { OnOk result (tree.IsOrdered pair_cmp accounts.new) }
    ensures too_large { IfErr result (λ fault. IsTooLarge fault (unwrap_or (tree.get pair_cmp accounts.old (key_of posting.now)) (pos 0) +ℤ posting.now.amount)) }
{
    let key = key_of(posting);
    put_sum(accounts, key, posting)
}

impl Settlement {
    /// Nothing was posted.
    pub fn new(alloc: Global) -> Settlement
        ensures { AreSumsOf [] result }
    {
        Settlement {
            operators: [0; OPERATORS],
            weeks: BTreeMap::new(alloc),
            accounts: BTreeMap::new(alloc),
            total: 0,
        }
    }

    /// Adds a posting. After an `Err` the sums are of no use.
    pub fn add(&mut self, posting: &Posting) -> Result<(), SettleFault>
        ensures sums { (list : List Posting) → AreSumsOf list self.old → OnOk result (AreSumsOf (list ++ posting.now ∷ []) self.new) }
        ensures adds_up { OnOk result (AddsUp posting.now) }
        ensures refused { (list : List Posting) → AreSumsOf list self.old → IfErr result (IsWhyNot list posting.now) }
    {
        refuse_shares(posting)?;
        put_total(&mut self.total, posting)?;
        self.operators = with_shares(&self.operators, &posting.share_amounts)?;
        put_week(&mut self.weeks, posting)?;
        put_account(&mut self.accounts, posting)
    }

    /// Adds postings, one after another. After an `Err` the sums are of no use.
    pub fn add_all(&mut self, postings: &[Posting]) -> Result<(), SettleFault>
        ensures sums { (list : List Posting) → AreSumsOf list self.old → OnOk result (AreSumsOf (list ++ postings.now) self.new) }
        ensures adds_up { OnOk result (AllByRecursion AddsUp postings.now) }
        ensures refused { (list : List Posting) → AreSumsOf list self.old → IfErr result (IsWhyNotOne list postings.now) }
    {
        for posting in postings {
            self.add(posting)?;
        }
        Ok(())
    }
}
