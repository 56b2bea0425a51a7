ghost use Rattle.std.specs.Prelude.{◌≡◌, ◌+◌, ◌≤◌, true, length, Ok, Err, IfOk, IfErr, OnOk, OnErr};
ghost use Rattle.pay_rules.specs.declared.addition.Addition.TheVariants as Addition;
ghost use Rattle.pay_rules.specs.declared.limits.TheConstants.{MOST_TAPS, MOST_FIXES, MOST_TOUCHES};
ghost use Rattle.pay_rules.specs.Taps.{number as tap_number, same_tap};
ghost use Rattle.pay_numbered.specs.Sound.{addition_at, IsPlace, IsPlaceFor};
ghost use Rattle.pay_rules.specs.Fixes.{judged as judged_fix};
ghost use Rattle.pay_day.specs.Words.{IsDay, monday};
ghost use Rattle.pay_rules.specs.Accepted.{touches, version, with_tap, with_fix};
ghost use Rattle.pay_rules.specs.Journeys.{journeys_of};
ghost use Rattle.pay_rules.specs.Lines.{shown, week_lines};
ghost use Rattle.pay_rules.specs.Quotes.{quote};
ghost use Rattle.pay_rules.specs.Prices.{prices, price_of_week};
ghost use Rattle.pay_rules.specs.TapResults.{tap_added, tap_result};
ghost use Rattle.pay_rules.specs.FixResults.{prices_named, fix_added, fix_result};

use crate::journeys::journeys_of;
use crate::laws;
use crate::lines::lines_on;
use crate::places::{is_known, is_known_fix};
use crate::prices::{price, price_on};
use crate::quoting::{edition_day, price_through, quote_of, weights_through};
use crate::sets::sets_of;
use crate::week_lines::lines_of_week;
use pay_day::monday;
use pay_fix::{FixSet, credits, day_named, effective};
use pay_money::Pence;
use pay_rules::{
    Addition, Fares, Fix, FixFault, Journey, Lines, Numbered, Priced, Quote, Sets, Shown, Tap,
    TapFault, What,
};
use pay_shares::shares;
use pay_tables::Editions;
use pay_taps::TapSet;
use pay_week::due;
use std::alloc::{AllocError, Global};
use std::marker::Model;

/// An account that keeps nothing but its accepted taps and corrections, and prices them from scratch at each
/// one. In a contract it is its number and these.
#[derive(Drop)]
pub struct Account {
    alloc: Global,
    number: u32,
    taps: TapSet,
    fixes: FixSet,
}

impl Model for Account {
    ghost use Rattle.std.specs.Prelude.{ℕ};
    ghost use Rattle.std.specs.Coded.{coded×, coded_ℕ};
    ghost use Rattle.pay_rules.specs.Accepted.{Accepted, accepted_code};
    ghost use Rattle.pay_rules.specs.SetsParts.{AreOwn};

    ghost Value = { ℕ × Accepted };

    ghost coded = { coded× coded_ℕ accepted_code };

    ghost view = { λ a. (a.number, record { taps = a.taps; fixes = a.fixes }) };

    ghost invariant = { λ a. AreOwn a.number (record { taps = a.taps; fixes = a.fixes }) };
}

impl Account {
    /// How many taps and corrections are accepted.
    pub fn version(&self) -> usize
        ensures value { result ≡ version self.now.1 }
        ensures in_range { result ≤ MOST_TAPS + MOST_FIXES }
    {
        self.taps.len() + self.fixes.len()
    }

    /// The accepted taps.
    pub fn taps(&self) -> &TapSet
        ensures { result.now ≡ self.now.1.taps }
    {
        &self.taps
    }

    /// The accepted corrections.
    pub fn fixes(&self) -> &FixSet
        ensures { result.now ≡ self.now.1.fixes }
    {
        &self.fixes
    }

    /// What comes of a tap where memory suffices: its place among the accepted taps if it is to be accepted, `None` if it is a repeat,
    /// or why it is refused.
    pub fn judge_tap(&self, editions: &Editions, tap: &Tap) -> Result<Option<usize>, TapFault>
        ensures judged { IfOk result (λ place. IsPlaceFor same_tap tap_number MOST_TAPS (Ok place) self.now.1.taps tap.now) }
        ensures priced { IfOk result (λ place. tap_result editions.now self.now.1 tap.now ≡ tap_added editions.now self.now.1 tap.now (Ok (addition_at place))) }
        ensures refused { IfErr result (λ fault. tap_result editions.now self.now.1 tap.now ≡ Err fault) }
    {
        if !is_known(editions, tap.place, tap.kind) {
            return Err(TapFault::UnknownPlace);
        }
        Ok(self.taps.place_for(tap)?)
    }

    /// Accepts a tap at its place, and prices nothing. An `Err` is out of memory.
    pub fn accept_tap(&mut self, place: usize, tap: Tap) -> Result<(), AllocError>
        requires own { tap.account ≡ self.old.0 }
        requires place { IsPlace same_tap tap_number MOST_TAPS place self.old.1.taps tap }
        ensures same_account { self.new.0 ≡ self.old.0 }
        ensures accepted { OnOk result (self.new.1 ≡ with_tap self.old.1 tap) }
        ensures same { OnErr result (self.new.1 ≡ self.old.1) }
    {
        pay_rule_laws::sets::judgements::<Tap>();
        pay_rule_laws::sets::one_more::<Tap>();
        self.taps.put_at(place, tap)?;
        Ok(())
    }

    /// What comes of a correction where memory suffices.
    pub fn judge_fix(&self, editions: &Editions, fix: &Fix) -> Result<Addition, FixFault>
        ensures judged { IfOk result (λ it. judged_fix self.now.1.fixes fix.now ≡ Ok it) }
        ensures priced { IfOk result (λ it. fix_result editions.now self.now.1 fix.now ≡ fix_added editions.now self.now.1 fix.now (Ok it)) }
        ensures refused { IfErr result (λ fault. fix_result editions.now self.now.1 fix.now ≡ Err fault) }
    {
        if !is_known_fix(editions, &fix.what) {
            return Err(FixFault::UnknownPlace);
        }
        Ok(self.fixes.judge(fix)?)
    }

    /// Accepts a correction that is judged to be accepted, and prices nothing. An `Err` is out of memory.
    pub fn accept_fix(&mut self, fix: Fix) -> Result<(), AllocError>
        requires own { fix.account ≡ self.old.0 }
        requires judged { judged_fix self.old.1.fixes fix ≡ Ok Addition.Added }
        ensures same_account { self.new.0 ≡ self.old.0 }
        ensures accepted { OnOk result (self.new.1 ≡ with_fix self.old.1 fix) }
        ensures same { OnErr result (self.new.1 ≡ self.old.1) }
    {
        pay_rule_laws::sets::judgements::<Fix>();
        pay_rule_laws::sets::one_more::<Fix>();
        match self.fixes.add(fix) {
            Ok(_) => Ok(()),
            Err(_) => Err(AllocError),
        }
    }

    /// A service day of the account, by all its journeys.
    pub fn show_by(
        &self,
        editions: &Editions,
        journeys: Vec<Journey>,
        day: u32,
    ) -> Result<Shown, AllocError>
        requires all { journeys.items ≡ journeys_of editions.now (touches self.now.1) }
        requires few { length journeys.items ≤ MOST_TOUCHES }
        ensures { IfOk result (λ it. it ≡ shown editions.now self.now.0 self.now.1 day) }
    {
        let (day_price, band) = price_on(editions, &journeys, day);
        let lines = lines_on(self.alloc, editions, journeys, day, band)?;
        Ok(Shown {
            account: self.number,
            day,
            lines,
            day_price,
        })
    }

    /// What the account owes of a week through one of its days, by all its journeys and the price of that week.
    pub fn quote_by(
        &self,
        editions: &Editions,
        journeys: Vec<Journey>,
        price: Pence,
        through: u32,
    ) -> Result<Quote, AllocError>
        requires numbered { 1 ≤ self.now.0 }
        requires is_day { IsDay through }
        requires all { journeys.items ≡ journeys_of editions.now (touches self.now.1) }
        requires few { length journeys.items ≤ MOST_TOUCHES }
        requires priced { price ≡ price_of_week editions.now journeys.items through }
        ensures { IfOk result (λ it. it ≡ quote editions.now self.now.0 self.now.1 through) }
    {
        laws::quotes(editions);
        let week = monday(through);
        let due = due(price, credits(&self.fixes, week, through));
        let weights = weights_through(self.alloc, editions, journeys, through)?;
        Ok(quote_of(
            self.number,
            week,
            through,
            self.version() as u32,
            due,
            edition_day(editions, week),
            shares(due, &weights),
        ))
    }

    /// The journeys of the week of a Monday, by all of the account's.
    pub fn lines_by(
        &self,
        editions: &Editions,
        journeys: Vec<Journey>,
        week: u32,
    ) -> Result<Lines, AllocError>
        requires is_day { IsDay week }
        requires is_monday { monday week ≡ week }
        requires all { journeys.items ≡ journeys_of editions.now (touches self.now.1) }
        requires few { length journeys.items ≤ MOST_TOUCHES }
        ensures { IfOk result (λ it. it ≡ week_lines editions.now self.now.1 week) }
    {
        lines_of_week(self.alloc, editions, journeys, week)
    }

    /// The prices of a day and its week.
    fn price(&self, editions: &Editions, again: bool, day: u32) -> Result<Priced, AllocError>
        requires { IsDay day }
        ensures { IfOk result (λ p. p ≡ prices editions.now self.now.1 again day) }
    {
        let touches = effective(self.alloc, &self.taps, &self.fixes)?;
        price(self.alloc, editions, &touches, again, day)
    }

    /// The prices of the day that a correction names.
    fn price_named(
        &self,
        editions: &Editions,
        again: bool,
        what: &What,
    ) -> Result<Priced, AllocError>
        ensures { IfOk result (λ p. p ≡ prices_named editions.now self.now.1 again what.now) }
    {
        match day_named(&self.taps, &self.fixes, what) {
            Some(day) => self.price(editions, again, day),
            None => Ok(Priced {
                again,
                day: 0,
                day_price: Pence::ZERO,
                week_price: Pence::ZERO,
            }),
        }
    }
}

impl Fares for Account {
    ghost use Rattle.std.specs.Prelude.{⊤};

    ghost account = { λ a. a.0 };

    ghost accepted = { λ a. a.1 };

    ghost IsPricedBy = { λ editions a. ⊤ };

    fn new(alloc: Global, number: u32) -> Account {
        Account {
            alloc,
            number,
            taps: TapSet::new(alloc),
            fixes: FixSet::new(alloc),
        }
    }

    fn number(&self) -> u32 {
        self.number
    }

    fn tap(&mut self, editions: &Editions, tap: Tap) -> Result<Priced, TapFault> {
        if !is_known(editions, tap.place, tap.kind) {
            return Err(TapFault::UnknownPlace);
        }
        pay_rule_laws::sets::judgements::<Tap>();
        pay_rule_laws::sets::one_more::<Tap>();
        match self.taps.add(tap)? {
            Addition::Repeat => Ok(self.price(editions, true, tap.stamp.day())?),
            Addition::Added => match self.price(editions, false, tap.stamp.day()) {
                Ok(priced) => Ok(priced),
                Err(_) => {
                    self.taps.remove(tap.number());
                    Err(TapFault::Memory)
                }
            },
        }
    }

    fn fix(&mut self, editions: &Editions, fix: Fix) -> Result<Priced, FixFault> {
        if !is_known_fix(editions, &fix.what) {
            return Err(FixFault::UnknownPlace);
        }
        pay_rule_laws::sets::judgements::<Fix>();
        pay_rule_laws::sets::one_more::<Fix>();
        match self.fixes.add(fix)? {
            Addition::Repeat => Ok(self.price_named(editions, true, &fix.what)?),
            Addition::Added => match self.price_named(editions, false, &fix.what) {
                Ok(priced) => Ok(priced),
                Err(_) => {
                    self.fixes.remove(fix.number());
                    Err(FixFault::Memory)
                }
            },
        }
    }

    fn show(&self, editions: &Editions, day: u32) -> Result<Shown, AllocError> {
        let touches = effective(self.alloc, &self.taps, &self.fixes)?;
        let journeys = journeys_of(self.alloc, editions, &touches)?;
        self.show_by(editions, journeys, day)
    }

    fn quote(&self, editions: &Editions, through: u32) -> Result<Quote, AllocError> {
        let touches = effective(self.alloc, &self.taps, &self.fixes)?;
        let journeys = journeys_of(self.alloc, editions, &touches)?;
        let price = price_through(editions, &journeys, through);
        self.quote_by(editions, journeys, price, through)
    }

    fn lines(&self, editions: &Editions, week: u32) -> Result<Lines, AllocError> {
        let touches = effective(self.alloc, &self.taps, &self.fixes)?;
        let journeys = journeys_of(self.alloc, editions, &touches)?;
        self.lines_by(editions, journeys, week)
    }

    fn sets(&self) -> Result<Sets, AllocError> {
        sets_of(self.alloc, self.number, &self.taps, &self.fixes)
    }
}
