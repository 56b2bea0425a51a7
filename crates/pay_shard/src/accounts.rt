ghost use Rattle.std.specs.Prelude.{◌≡◌, ◌<◌, ◌≤◌, ℕ, nat_eq, is_some, map as each, [], IsOk, IfOk, IfErr, IfSome, IfNone, OnOk, OnErr, None};
ghost use Rattle.std.specs.Arc.{arc_value};
ghost use Rattle.std.specs.FinMap as map;
ghost use Rattle.std.specs.HashMap.{get, keys};
ghost use Rattle.std.specs.List.{IsDistinct};
ghost use Rattle.std.specs.Ordering.{nat_cmp, eq_by_cmp};
ghost use Rattle.std.specs.Set.{is_member};
ghost use Rattle.pay_day.specs.Words.{IsDay};
ghost use Rattle.pay_rules.specs.TapResults.{IsTapResult};
ghost use Rattle.pay_rules.specs.FixResults.{IsFixResult};
ghost use Rattle.pay_rules.specs.Lines.{shown};
ghost use Rattle.pay_rules.specs.Quotes.{quote};
ghost use Rattle.pay_shard.specs.State.{after_tap_of, after_fix_of};
ghost use Rattle.pay_rules.specs.State.{accepted_of, ArePriced};
ghost use Rattle.pay_shard.specs.BatchParts.{batch, batch_if_quoted, batch_with};
ghost use Rattle.pay_shard.specs.Held.{ArePlaces, AreNumbersOf, state_of};

use crate::batch::Batch;
use crate::selection::is_quoted;
use pay_rules::{BoxedQuote, Fares, Fix, FixFault, Priced, Quote, Shown, Tap, TapFault};
use pay_tables::Editions;
use std::alloc::{AllocError, AllocFailed, Global};
use std::collections::HashMap;
use std::marker::Model;
use std::sync::Arc;

/// Accounts that are priced by one fare file, each at a number of its own. In a contract they are that fare file and the
/// finite map from each account to what it has accepted.
#[derive(Drop)]
pub struct Accounts<F: Fares> {
    alloc: Global,
    editions: Arc<Editions>,
    // The place of each account by its number.
    places: HashMap<u32, usize>,
    accounts: Vec<F>,
}

impl<F: Fares> Model for Accounts<F> {
    ghost use Rattle.std.specs.Prelude.{map};
    ghost use Rattle.std.specs.Arc.{arc_value};
    ghost use Rattle.pay_shard.specs.Held.{Held, held_code, ArePlaces, state_of};
    ghost use Rattle.pay_rules.specs.State.{ArePriced};

    ghost Value = { Held };

    ghost coded = { held_code };

    ghost view = { λ a. record { editions = arc_value a.editions; state = state_of F.account F.accepted a.accounts.items } };

    ghost invariant = { λ a. ArePlaces a.places.entries (map F.account a.accounts.items)
        × ArePriced F.account (F.IsPricedBy (arc_value a.editions)) a.accounts.items };
}

/// The place of each account by its number. An `Err` is out of memory.
fn places_of<F: Fares>(alloc: Global, accounts: &[F]) -> Result<HashMap<u32, usize>, AllocError>
    requires { IsDistinct (eq_by_cmp nat_cmp) (each F.account accounts.now) }
    ensures ok { IfOk result (λ places. ArePlaces places.entries (each F.account accounts.now)) }
    ensures none { accounts.now ≡ [] → IsOk result }
{
    let mut places = HashMap::new(alloc);
    for place in 0..accounts.len() {
        places.insert(accounts[place].number(), place)?;
    }
    Ok(places)
}

/// The numbers of accounts, in whatever order. An `Err` is out of memory.
fn keys_of(alloc: Global, places: &HashMap<u32, usize>) -> Result<Vec<u32>, AllocError>
    ensures all { IfOk result (λ numbers. numbers.items ≡ keys places.now) }
    ensures distinct { IfOk result (λ numbers. IsDistinct nat_eq numbers.items) }
    ensures has { IfOk result (λ numbers. (q : ℕ) → is_some (get nat_eq places.now q) ≡ is_member nat_eq numbers.items q) }
{
    places.keys().copied().collect(alloc)
}

/// The numbers of accounts in ascending order. An `Err` is out of memory.
fn numbers_of(alloc: Global, places: &HashMap<u32, usize>) -> Result<Vec<u32>, AllocError>
    ensures { IfOk result (λ numbers. AreNumbersOf places.now.entries numbers.items) }
{
    let mut numbers = keys_of(alloc, places)?;
    numbers.sort_unstable();
    Ok(numbers)
}

/// Quotes an account in a batch, if it has a tap or a Fill on a day of the week through that day.
fn add_if_quoted<F: Fares>(
    batch: &mut Batch,
    editions: &Editions,
    held: &F,
    through: u32,
) -> Result<(), AllocError>
    requires numbered { 1 ≤ F.account held.now }
    requires is_day { IsDay through }
    requires priced_by { F.IsPricedBy editions.now held.now }
    ensures { OnOk result (batch.new ≡ batch_if_quoted editions.now through batch.old (F.account held.now) (F.accepted held.now)) }
{
    let sets = held.sets()?;
    if !is_quoted(&sets, through) {
        return Ok(());
    }
    let quote = held.quote(editions, through)?;
    batch.push(quote, sets)
}

impl<F: Fares> Accounts<F> {
    /// These accounts. `Memory` gives them back; no accounts take no memory.
    pub fn new(
        alloc: Global,
        editions: Arc<Editions>,
        accounts: Vec<F>,
    ) -> Result<Accounts<F>, AllocFailed<Vec<F>>>
        requires distinct { IsDistinct (eq_by_cmp nat_cmp) (each F.account accounts.items) }
        requires priced { ArePriced F.account (F.IsPricedBy (arc_value editions)) accounts.items }
        ensures ok { IfOk result (λ made. made ≡ record { editions = arc_value editions; state = state_of F.account F.accepted accounts.items }) }
        ensures given_back { IfErr result (λ failed. failed.value ≡ accounts) }
        ensures none { accounts.items ≡ [] → IsOk result }
    {
        match places_of(alloc, &accounts) {
            Ok(places) => Ok(Accounts {
                alloc,
                editions,
                places,
                accounts,
            }),
            Err(_) => Err(AllocFailed { value: accounts }),
        }
    }

    /// The fare file by which they are priced.
    pub fn editions(&self) -> &Editions
        ensures { result.now ≡ self.now.editions }
    {
        &self.editions
    }

    /// How many accounts have accepted something.
    pub fn count(&self) -> usize
        ensures { result ≡ map.len self.now.state }
    {
        self.places.len()
    }

    /// An account by its number.
    pub fn get(&self, number: u32) -> Option<&F>
        ensures some { IfSome result (λ it. map.get self.now.state number ≡ Some (F.accepted it.now)) }
        ensures own { IfSome result (λ it. F.account it.now ≡ number) }
        ensures numbered { IfSome result (λ it. 1 ≤ F.account it.now) }
        ensures priced_by { IfSome result (λ it. F.IsPricedBy self.now.editions it.now) }
        ensures none { IfNone result (map.get self.now.state number ≡ None) }
    {
        let place = *self.places.get(&number)?;
        self.accounts.get(place)
    }

    /// Keeps an account at its number, where none is.
    fn keep(&mut self, account: F) -> Result<(), AllocError>
        requires absent { map.get self.old.state (F.account account) ≡ None }
        requires numbered { 1 ≤ F.account account }
        requires priced_by { F.IsPricedBy self.old.editions account }
        ensures kept { OnOk result (self.new ≡ record { editions = self.old.editions; state = map.insert self.old.state (F.account account) (F.accepted account) }) }
        ensures err { OnErr result (self.new ≡ self.old) }
    {
        // With room, an account is moved once.
        self.accounts.reserve(1)?;
        self.places.insert(account.number(), self.accounts.len())?;
        self.accounts.push_reserved(account);
        Ok(())
    }

    /// Hands a tap to its account, which is opened by the first that it accepts: a refused tap leaves none.
    pub fn tap(&mut self, tap: Tap) -> Result<Priced, TapFault>
        requires { 1 ≤ tap.account }
        ensures answer { IsTapResult result self.old.editions (accepted_of self.old.state tap.account) tap }
        ensures after { self.new ≡ record { editions = self.old.editions; state = after_tap_of result self.old.state tap } }
    {
        match self.places.get(&tap.account) {
            Some(place) => self.accounts[*place].tap(&self.editions, tap),
            None => self.open_by_tap(tap),
        }
    }

    /// Hands a tap to a new account, and keeps the account if the tap is accepted.
    fn open_by_tap(&mut self, tap: Tap) -> Result<Priced, TapFault>
        requires numbered { 1 ≤ tap.account }
        requires absent { map.get self.old.state tap.account ≡ None }
        ensures answer { IsTapResult result self.old.editions (accepted_of self.old.state tap.account) tap }
        ensures after { self.new ≡ record { editions = self.old.editions; state = after_tap_of result self.old.state tap } }
    {
        let mut account = F::new(self.alloc, tap.account);
        let priced = account.tap(&self.editions, tap)?;
        self.keep(account)?;
        Ok(priced)
    }

    /// Hands a correction to its account, which is opened by the first that it accepts, as by a tap.
    pub fn fix(&mut self, fix: Fix) -> Result<Priced, FixFault>
        requires { 1 ≤ fix.account }
        ensures answer { IsFixResult result self.old.editions (accepted_of self.old.state fix.account) fix }
        ensures after { self.new ≡ record { editions = self.old.editions; state = after_fix_of result self.old.state fix } }
    {
        match self.places.get(&fix.account) {
            Some(place) => self.accounts[*place].fix(&self.editions, fix),
            None => self.open_by_fix(fix),
        }
    }

    /// Hands a correction to a new account, and keeps the account if the correction is accepted.
    fn open_by_fix(&mut self, fix: Fix) -> Result<Priced, FixFault>
        requires numbered { 1 ≤ fix.account }
        requires absent { map.get self.old.state fix.account ≡ None }
        ensures answer { IsFixResult result self.old.editions (accepted_of self.old.state fix.account) fix }
        ensures after { self.new ≡ record { editions = self.old.editions; state = after_fix_of result self.old.state fix } }
    {
        let mut account = F::new(self.alloc, fix.account);
        let priced = account.fix(&self.editions, fix)?;
        self.keep(account)?;
        Ok(priced)
    }

    /// Shows a service day of an account. One that has accepted nothing has no journeys.
    pub fn show(&self, account: u32, day: u32) -> Result<Shown, AllocError>
        ensures { IfOk result (λ it. it ≡ shown self.now.editions account (accepted_of self.now.state account) day) }
    {
        match self.get(account) {
            Some(held) => held.show(&self.editions, day),
            None => F::new(self.alloc, account).show(&self.editions, day),
        }
    }

    /// What an account owes of the week of a service day, through that day. One that has accepted nothing owes nothing.
    fn quote(&self, account: u32, through: u32) -> Result<Quote, AllocError>
        requires numbered { 1 ≤ account }
        requires is_day { IsDay through }
        ensures { IfOk result (λ it. it ≡ quote self.now.editions account (accepted_of self.now.state account) through) }
    {
        match self.get(account) {
            Some(held) => held.quote(&self.editions, through),
            None => F::new(self.alloc, account).quote(&self.editions, through),
        }
    }

    /// The same in memory of its own.
    pub fn boxed_quote(&self, account: u32, through: u32) -> Result<BoxedQuote, AllocError>
        requires numbered { 1 ≤ account }
        requires is_day { IsDay through }
        ensures { IfOk result (λ it. it ≡ quote self.now.editions account (accepted_of self.now.state account) through) }
    {
        BoxedQuote::new(self.alloc, self.quote(account, through)?)
    }

    /// Quotes an account in a batch, if it is the shard's and is quoted.
    fn add_account(
        &self,
        batch: &mut Batch,
        account: u32,
        through: u32,
        shard: u8,
        of: u8,
    ) -> Result<(), AllocError>
        requires is_day { IsDay through }
        requires shards { 0 < of }
        ensures { OnOk result (batch.new ≡ batch_with self.now.editions self.now.state (through, shard, of) batch.old account) }
    {
        if account % u32::from(of) != u32::from(shard) {
            return Ok(());
        }
        match self.get(account) {
            Some(held) => add_if_quoted(batch, &self.editions, held, through),
            None => Ok(()),
        }
    }

    /// Quotes the accounts of a shard that have a tap or a Fill on a day of the week through that day.
    pub fn quotes(&self, through: u32, shard: u8, of: u8) -> Result<Batch, AllocError>
        requires is_day { IsDay through }
        requires shards { 0 < of }
        ensures { IfOk result (λ it. it ≡ batch self.now.editions self.now.state through shard of) }
    {
        let mut batch = Batch::new(self.alloc);
        let numbers = numbers_of(self.alloc, &self.places)?;
        for account in &numbers {
            self.add_account(&mut batch, *account, through, shard, of)?;
        }
        Ok(batch)
    }
}
