ghost use Rattle.std.specs.Prelude.{◌≡◌, ◌≢◌, ◌≤◌, ◌+◌, ◌*◌, List, length, Ok, Err, IfOk, OnOk, OnErr};
ghost use Rattle.pay_day.specs.Words.{IsDay};
ghost use Rattle.pay_rules.specs.declared.addition.Addition.TheVariants as Addition;
ghost use Rattle.pay_rules.specs.declared.limits.TheConstants.{MOST_TAPS, MOST_TOUCHES};
ghost use Rattle.pay_rules.specs.Taps.{number as tap_number, same_tap};
ghost use Rattle.pay_numbered.specs.Sound.{IsPlace};
ghost use Rattle.pay_rules.specs.Fixes.{judged as judged_fix};
ghost use Rattle.pay_rules.specs.Journeys.{journeys_of};
ghost use Rattle.pay_rules.specs.Prices.{prices, price_of_week};
ghost use Rattle.pay_rules.specs.FixResults.{prices_named, IsFixResult, after_fix};
ghost use Rattle.pay_rules.specs.Accepted.{with_tap, with_fix, touches};
ghost use Rattle.pay_rules.specs.TapResults.{IsTapResult, after_tap};
ghost use Rattle.pay_book.specs.Disturbed.{disturbed};
ghost use Rattle.pay_book.specs.Stored.{IsConsistent};

use crate::marked_taps::MarkedTaps;
use crate::{boardings, days, laws, rail};
use pay_account::Account;
use pay_fix::{change_by_fix, change_by_tap, day_named};
use pay_money::Pence;
use pay_rules::{
    Addition, Fares, Fix, FixFault, Journey, Lines, Priced, Quote, Sets, Shown, Tap, TapFault, What,
};
use pay_tables::Editions;
use pay_taps::{Steps, Timeline};
use std::alloc::{AllocError, Global};
use std::marker::Model;

/// An account that keeps its effective taps in order with the marks of its journeys, and the sums of each day's fares. A tap or a
/// correction changes what it disturbs of these, and prices are read from the sums. In a contract it is all of this.
#[derive(Drop)]
pub struct Book {
    alloc: Global,
    account: Account,
    held: MarkedTaps,
    steps: Steps,
}

impl Model for Book {
    ghost use Rattle.pay_book.specs.Books.{BookParts, book_code};

    ghost Value = { BookParts };

    ghost coded = { book_code };

    ghost view = { λ b. record {
      account = b.account.0;
      accepted = b.account.1;
      rail = b.held.rail.touches;
      starts = b.held.starts.items;
      buses = b.held.buses.touches;
      pays = b.held.pays.items;
      days = b.held.days;
      steps = b.steps;
    } };
}

impl Book {
    /// How many stored taps the last tap or correction read.
    pub fn steps(&self) -> u64
        ensures { result ≡ self.now.steps }
    {
        self.steps.count()
    }

    /// The effective taps by rail, in order.
    pub fn by_rail(&self) -> &Timeline
        ensures { result.now.touches ≡ self.now.rail }
    {
        &self.held.rail
    }

    /// The effective taps on buses, in order.
    pub fn on_buses(&self) -> &Timeline
        ensures { result.now.touches ≡ self.now.buses }
    {
        &self.held.buses
    }

    /// The prices of a day and its week.
    fn prices(&self, editions: &Editions, again: bool, day: u32) -> Priced
        requires is_day { IsDay day }
        requires held { IsConsistent editions.now self.now }
        ensures { result ≡ prices editions.now self.now.accepted again day }
    {
        laws::boarded_by_all();
        days::prices(editions, &self.held.days, again, day)
    }

    /// The price of a week through one of its days.
    fn price_through(&self, editions: &Editions, through: u32) -> Pence
        requires is_day { IsDay through }
        requires held { IsConsistent editions.now self.now }
        ensures { result ≡ price_of_week editions.now (journeys_of editions.now (touches self.now.accepted)) through }
    {
        laws::boarded_by_all();
        days::price_through(editions, &self.held.days, through)
    }

    /// All journeys. An `Err` is out of memory.
    fn journeys(&self, editions: &Editions) -> Result<Vec<Journey>, AllocError>
        requires held { IsConsistent editions.now self.now }
        ensures all { IfOk result (λ list. list.items ≡ journeys_of editions.now (touches self.now.accepted)) }
        ensures few { IfOk result (λ list. length list.items ≤ MOST_TOUCHES) }
    {
        laws::boarded_by_all();
        pay_links::laws::each_tap();
        pay_fix::laws::own_numbers();
        self.account.taps().len();
        self.account.fixes().len();
        pay_links::laws::kept_as_marks();
        pay_links::laws::starts_are_local();
        let mut list = rail::all_journeys(self.alloc, &self.held.rail, &self.held.starts)?;
        boardings::add_all(self.alloc, &mut list, &self.held.buses, &self.held.pays)?;
        Ok(list)
    }

    /// The prices of the day that a correction names.
    fn prices_named(&self, editions: &Editions, again: bool, what: &What) -> Priced
        requires held { IsConsistent editions.now self.now }
        ensures { result ≡ prices_named editions.now self.now.accepted again what.now }
    {
        match day_named(self.account.taps(), self.account.fixes(), what) {
            Some(day) => self.prices(editions, again, day),
            None => Priced {
                again,
                day: 0,
                day_price: Pence::ZERO,
                week_price: Pence::ZERO,
            },
        }
    }

    /// Accepts a tap and prices it, or refuses it, as `Fares` says. It reads at most 64 stored taps, and four for each one that it
    /// disturbs: none is disturbed by a tap that is refused or repeated, or that a standing Void names.
    pub fn tap(&mut self, editions: &Editions, tap: Tap) -> Result<Priced, TapFault>
        requires own { tap.account ≡ self.old.account }
        requires priced_by { IsConsistent editions.now self.old }
        ensures same_account { self.new.account ≡ self.old.account }
        ensures answer { IsTapResult result editions.now self.old.accepted tap }
        ensures after { self.new.accepted ≡ after_tap result self.old.accepted tap }
        ensures priced_by { IsConsistent editions.now self.new }
        ensures steps { result ≢ Err TapFault.Memory → self.new.steps ≤ 64 + 4 * disturbed editions.now (touches self.old.accepted) (touches self.new.accepted) }
    {
        pay_rule_laws::accounts::refusals();
        self.steps = Steps::new();
        match self.account.judge_tap(editions, &tap)? {
            None => Ok(self.prices(editions, true, tap.stamp.day())),
            Some(place) => {
                self.add_tap(editions, place, tap)?;
                Ok(self.prices(editions, false, tap.stamp.day()))
            }
        }
    }

    /// Accepts a correction and prices the day that it names, or refuses it, as `Fares` says. It reads at most 64 stored taps, and four
    /// for each one that it disturbs: a Credit disturbs none.
    pub fn fix(&mut self, editions: &Editions, fix: Fix) -> Result<Priced, FixFault>
        requires own { fix.account ≡ self.old.account }
        requires priced_by { IsConsistent editions.now self.old }
        ensures same_account { self.new.account ≡ self.old.account }
        ensures answer { IsFixResult result editions.now self.old.accepted fix }
        ensures after { self.new.accepted ≡ after_fix result self.old.accepted fix }
        ensures priced_by { IsConsistent editions.now self.new }
        ensures steps { result ≢ Err FixFault.Memory → self.new.steps ≤ 64 + 4 * disturbed editions.now (touches self.old.accepted) (touches self.new.accepted) }
    {
        pay_rule_laws::accounts::refusals_of_fixes();
        self.steps = Steps::new();
        match self.account.judge_fix(editions, &fix)? {
            Addition::Repeat => Ok(self.prices_named(editions, true, &fix.what)),
            Addition::Added => {
                self.add_fix(editions, fix)?;
                Ok(self.prices_named(editions, false, &fix.what))
            }
        }
    }

    /// Accepts a tap at its place. An `Err` is out of memory: then it is as before.
    fn add_tap(&mut self, editions: &Editions, place: usize, tap: Tap) -> Result<(), AllocError>
        requires own { tap.account ≡ self.old.account }
        requires place { IsPlace same_tap tap_number MOST_TAPS place self.old.accepted.taps tap }
        requires held { IsConsistent editions.now self.old }
        ensures same_account { self.new.account ≡ self.old.account }
        ensures accepted { OnOk result (self.new.accepted ≡ with_tap self.old.accepted tap) }
        ensures same { OnErr result (self.new.accepted ≡ self.old.accepted) }
        ensures held { IsConsistent editions.now self.new }
        ensures rises { self.old.steps ≤ self.new.steps }
        ensures steps { OnOk result (self.new.steps ≤ self.old.steps + 24 + 2 * disturbed editions.now (touches self.old.accepted) (touches self.new.accepted)) }
    {
        laws::changes();
        laws::tap_is_change();
        self.account.taps().len();
        self.account.fixes().len();
        let change = change_by_tap(self.account.fixes(), &tap);
        let repair = self
            .held
            .prepare(self.alloc, editions, &change, &mut self.steps)?;
        self.account.accept_tap(place, tap)?;
        self.held.apply(editions, &change, &repair, &mut self.steps);
        Ok(())
    }

    /// Accepts a correction that is judged to be accepted. An `Err` is out of memory: then it is as before.
    fn add_fix(&mut self, editions: &Editions, fix: Fix) -> Result<(), AllocError>
        requires own { fix.account ≡ self.old.account }
        requires judged { judged_fix self.old.accepted.fixes fix ≡ Ok Addition.Added }
        requires held { IsConsistent editions.now self.old }
        ensures same_account { self.new.account ≡ self.old.account }
        ensures accepted { OnOk result (self.new.accepted ≡ with_fix self.old.accepted fix) }
        ensures same { OnErr result (self.new.accepted ≡ self.old.accepted) }
        ensures held { IsConsistent editions.now self.new }
        ensures rises { self.old.steps ≤ self.new.steps }
        ensures steps { OnOk result (self.new.steps ≤ self.old.steps + 24 + 2 * disturbed editions.now (touches self.old.accepted) (touches self.new.accepted)) }
    {
        laws::changes();
        laws::fix_is_change();
        self.account.taps().len();
        self.account.fixes().len();
        let change = change_by_fix(self.account.taps(), self.account.fixes(), &fix);
        let repair = self
            .held
            .prepare(self.alloc, editions, &change, &mut self.steps)?;
        self.account.accept_fix(fix)?;
        self.held.apply(editions, &change, &repair, &mut self.steps);
        Ok(())
    }
}

impl Fares for Book {
    ghost use Rattle.pay_book.specs.Stored.{IsConsistent};

    ghost account = { λ b. b.account };

    ghost accepted = { λ b. b.accepted };

    ghost IsPricedBy = { IsConsistent };

    fn new(alloc: Global, number: u32) -> Book {
        Book {
            alloc,
            account: Account::new(alloc, number),
            held: MarkedTaps::new(alloc),
            steps: Steps::new(),
        }
    }

    fn number(&self) -> u32 {
        self.account.number()
    }

    fn tap(&mut self, editions: &Editions, tap: Tap) -> Result<Priced, TapFault> {
        Book::tap(self, editions, tap)
    }

    fn fix(&mut self, editions: &Editions, fix: Fix) -> Result<Priced, FixFault> {
        Book::fix(self, editions, fix)
    }

    fn show(&self, editions: &Editions, day: u32) -> Result<Shown, AllocError> {
        let journeys = self.journeys(editions)?;
        self.account.show_by(editions, journeys, day)
    }

    fn quote(&self, editions: &Editions, through: u32) -> Result<Quote, AllocError> {
        let price = self.price_through(editions, through);
        let journeys = self.journeys(editions)?;
        self.account.quote_by(editions, journeys, price, through)
    }

    fn lines(&self, editions: &Editions, week: u32) -> Result<Lines, AllocError> {
        let journeys = self.journeys(editions)?;
        self.account.lines_by(editions, journeys, week)
    }

    fn sets(&self) -> Result<Sets, AllocError> {
        self.account.sets()
    }
}
