ghost use Rattle.std.specs.Prelude.{◌≡◌, ◌≤◌};
ghost use Rattle.pay_shard.specs.declared.asked.Asked.TheVariants as asked;
ghost use Rattle.pay_shard.specs.Ranges.{IsInRange};
ghost use Rattle.pay_shard.specs.Machine.{IsAnswered};

use crate::accounts::Accounts;
use crate::asked::Asked;
use crate::reply::Reply;
use pay_rules::{Fares, Fix, Tap};

impl<F: Fares> Accounts<F> {
    /// Answers what is asked.
    pub fn answer(&mut self, asked: Asked) -> Reply
        requires { IsInRange asked }
        ensures answered { IsAnswered self.old.editions self.old.state asked result self.new.state }
        ensures editions { self.new.editions ≡ self.old.editions }
    {
        match asked {
            Asked::Tap(tap) => self.answer_tap(tap),
            Asked::Fix(fix) => self.answer_fix(fix),
            Asked::Due { account, day } => match self.boxed_quote(account, day) {
                Ok(quote) => Reply::Due(quote),
                Err(_) => Reply::Memory,
            },
            Asked::Show { account, day } => match self.show(account, day) {
                Ok(shown) => Reply::Shown(shown),
                Err(_) => Reply::Memory,
            },
            Asked::Quotes { day, shard, of } => match self.quotes(day, shard, of) {
                Ok(batch) => Reply::Quotes(batch),
                Err(_) => Reply::Memory,
            },
        }
    }

    fn answer_tap(&mut self, tap: Tap) -> Reply
        requires { 1 ≤ tap.account }
        ensures answered { IsAnswered self.old.editions self.old.state (asked.Tap tap) result self.new.state }
        ensures editions { self.new.editions ≡ self.old.editions }
    {
        match self.tap(tap) {
            Ok(priced) => Reply::Priced(priced),
            Err(fault) => Reply::from(fault),
        }
    }

    fn answer_fix(&mut self, fix: Fix) -> Reply
        requires { 1 ≤ fix.account }
        ensures answered { IsAnswered self.old.editions self.old.state (asked.Fix fix) result self.new.state }
        ensures editions { self.new.editions ≡ self.old.editions }
    {
        match self.fix(fix) {
            Ok(priced) => Reply::Priced(priced),
            Err(fault) => Reply::from(fault),
        }
    }
}
