ghost use Rattle.std.specs.Prelude.{◌≡◌, ◌≤◌, ℕ, IfOk};
ghost use Rattle.pay_day.specs.Words.{IsDay, monday};
ghost use Rattle.pay_tables.specs.Words.{FareEditions};
ghost use Rattle.pay_rules.specs.Accepted.{Accepted, nothing};
ghost use Rattle.pay_rules.specs.TapResults.{IsTapResult, after_tap};
ghost use Rattle.pay_rules.specs.FixResults.{IsFixResult, after_fix};
ghost use Rattle.pay_rules.specs.Lines.{shown, week_lines};
ghost use Rattle.pay_rules.specs.Quotes.{quote};
ghost use Rattle.pay_rules.specs.SetsParts.{sets};

use crate::addition::AdditionFault;
use crate::fix::Fix;
use crate::priced::Priced;
use crate::quote::Quote;
use crate::sets::Sets;
use crate::shown::{Lines, Shown};
use crate::tap::Tap;
use pay_tables::Editions;
use std::alloc::{AllocError, Global};
use thiserror::Error;

/// Why a tap is refused. The account stays as it was.
#[derive(Clone, Copy, Debug, PartialEq, Eq, Error)]
pub enum TapFault {
    /// 15: the fare file has no such place, or it is a route and the tap was made at a station, or
    /// the reverse.
    #[error("15 UnknownPlace")]
    UnknownPlace,
    /// 20: the account has another tap of that number.
    #[error("20 Conflict")]
    Conflict,
    /// 21: the account has as many taps as it may have.
    #[error("21 AccountFull")]
    AccountFull,
    /// 90: no memory.
    #[error("90 Memory")]
    Memory,
}

impl From<AllocError> for TapFault {
    ghost use Rattle.std.specs.Prelude.{◌≡◌};
    ghost use Rattle.pay_rules.specs.declared.fares.TapFault.TheVariants.{Memory};

    ghost from_gives = { λ _ fault. fault ≡ Memory };

    fn from(_: AllocError) -> TapFault {
        TapFault::Memory
    }
}

impl From<AdditionFault> for TapFault {
    ghost use Rattle.std.specs.Prelude.{◌≡◌};
    ghost use Rattle.pay_rules.specs.Faults.{tap_fault};

    ghost from_gives = { λ of fault. fault ≡ tap_fault of };

    fn from(of: AdditionFault) -> TapFault {
        match of {
            AdditionFault::Conflict => TapFault::Conflict,
            AdditionFault::Full => TapFault::AccountFull,
            AdditionFault::Memory => TapFault::Memory,
        }
    }
}

/// Why a correction is refused. The account stays as it was.
#[derive(Clone, Copy, Debug, PartialEq, Eq, Error)]
pub enum FixFault {
    /// 15: a Fill names no place of the fare file, or one of another sort than its kind needs.
    #[error("15 UnknownPlace")]
    UnknownPlace,
    /// 22: the account has another correction of that number.
    #[error("22 FixConflict")]
    FixConflict,
    /// 23: the account has as many corrections as it may have.
    #[error("23 FixesFull")]
    FixesFull,
    /// 90: no memory.
    #[error("90 Memory")]
    Memory,
}

impl From<AllocError> for FixFault {
    ghost use Rattle.std.specs.Prelude.{◌≡◌};
    ghost use Rattle.pay_rules.specs.declared.fares.FixFault.TheVariants.{Memory};

    ghost from_gives = { λ _ fault. fault ≡ Memory };

    fn from(_: AllocError) -> FixFault {
        FixFault::Memory
    }
}

impl From<AdditionFault> for FixFault {
    ghost use Rattle.std.specs.Prelude.{◌≡◌};
    ghost use Rattle.pay_rules.specs.Faults.{fix_fault};

    ghost from_gives = { λ of fault. fault ≡ fix_fault of };

    fn from(of: AdditionFault) -> FixFault {
        match of {
            AdditionFault::Conflict => FixFault::FixConflict,
            AdditionFault::Full => FixFault::FixesFull,
            AdditionFault::Memory => FixFault::Memory,
        }
    }
}

/// An account that prices its taps. It means its number and what it has accepted, taps and corrections, and
/// all its results are of these and the editions of the fare file. These have to be the same at every call
/// of an account, which may keep what it priced: a new account serves for any.
pub trait Fares: Drop {
    /// The number of the account.
    ghost account: { Self → ℕ };

    /// The accepted taps and corrections, by their numbers.
    ghost accepted: { Self → Accepted };

    /// Whether the account may be priced by a fare file.
    ghost IsPricedBy: { FareEditions → Self → Type 0 };

    /// An account that has accepted nothing.
    fn new(alloc: Global, number: u32) -> Self
        ensures numbered { account result ≡ number }
        ensures nothing { accepted result ≡ nothing }
        ensures any { (editions : FareEditions) → IsPricedBy editions result };

    /// The number of the account.
    fn number(&self) -> u32
        ensures { result ≡ account self.now };

    /// Accepts a tap and prices it: its day, and its week through Sunday. A repeat of an accepted tap
    /// is given the present prices. A fault is the first of `UnknownPlace`, `Conflict`, `AccountFull`
    /// and `Memory` that there is.
    fn tap(&mut self, editions: &Editions, tap: Tap) -> Result<Priced, TapFault>
        requires own { tap.account ≡ account self.old }
        requires priced_by { IsPricedBy editions.now self.old }
        ensures same_account { account self.new ≡ account self.old }
        ensures answer { IsTapResult result editions.now (accepted self.old) tap }
        ensures after { accepted self.new ≡ after_tap result (accepted self.old) tap }
        ensures priced_by { IsPricedBy editions.now self.new };

    /// Accepts a correction and prices the day that it names, and its week through Sunday. A repeat of an
    /// accepted one is given the present day and prices. A fault is the first of `UnknownPlace`,
    /// `FixConflict`, `FixesFull` and `Memory` that there is.
    fn fix(&mut self, editions: &Editions, fix: Fix) -> Result<Priced, FixFault>
        requires own { fix.account ≡ account self.old }
        requires priced_by { IsPricedBy editions.now self.old }
        ensures same_account { account self.new ≡ account self.old }
        ensures answer { IsFixResult result editions.now (accepted self.old) fix }
        ensures after { accepted self.new ≡ after_fix result (accepted self.old) fix }
        ensures priced_by { IsPricedBy editions.now self.new };

    /// Shows the journeys of a service day, counted from 1970-01-01, and its price. An `Err` is out of
    /// memory.
    fn show(&self, editions: &Editions, day: u32) -> Result<Shown, AllocError>
        requires { IsPricedBy editions.now self.now }
        ensures { IfOk result (λ it. it ≡ shown editions.now (account self.now) (accepted self.now) day) };

    /// What is owed of the week of a service day, counted from 1970-01-01, through that day, and what of it
    /// each operator gets. An `Err` is out of memory.
    fn quote(&self, editions: &Editions, through: u32) -> Result<Quote, AllocError>
        requires numbered { 1 ≤ account self.now }
        requires is_day { IsDay through }
        requires priced_by { IsPricedBy editions.now self.now }
        ensures { IfOk result (λ it. it ≡ quote editions.now (account self.now) (accepted self.now) through) };

    /// The journeys of a week, whose Monday is counted from 1970-01-01, in the order of their first taps. Each
    /// is shown with the band that gives the price of its own day, where that covers it. An `Err` is out of
    /// memory.
    fn lines(&self, editions: &Editions, week: u32) -> Result<Lines, AllocError>
        requires is_day { IsDay week }
        requires is_monday { monday week ≡ week }
        requires priced_by { IsPricedBy editions.now self.now }
        ensures { IfOk result (λ it. it ≡ week_lines editions.now (accepted self.now) week) };

    /// All that the account has accepted. An `Err` is out of memory.
    fn sets(&self) -> Result<Sets, AllocError>
        ensures { IfOk result (λ it. it ≡ sets (account self.now) (accepted self.now)) };
}
