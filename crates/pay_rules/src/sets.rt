ghost use Rattle.std.specs.Prelude.{◌≡◌};
ghost use Rattle.pay_rules.specs.declared.limits.TheConstants.{MOST_TAPS, MOST_FIXES};
ghost use Rattle.pay_rules.specs.Taps.{number as tap_number};
ghost use Rattle.pay_rules.specs.Fixes.{number as fix_number};
ghost use Rattle.pay_rules.specs.SetsParts.{AreNumbered, AreTapsOf, AreFixesOf};

use crate::fix::Fix;
use crate::tap::Tap;
use std::marker::Model;

/// All that an account has accepted, as it is archived: its taps and its corrections, each number once, in
/// ascending order. In a contract it is a record of its account and the two lists.
#[derive(Drop)]
pub struct Sets {
    account: u32,
    taps: Vec<Tap>,
    fixes: Vec<Fix>,
}

impl Model for Sets {
    ghost use Rattle.pay_rules.specs.SetsParts.{SetsParts, sets_code, AreSets};

    ghost Value = { SetsParts };

    ghost coded = { sets_code };

    ghost view = { λ s. record { account = s.account; taps = s.taps.items; fixes = s.fixes.items } };

    ghost invariant = { λ s. AreSets (record { account = s.account; taps = s.taps.items; fixes = s.fixes.items }) };
}

impl Sets {
    /// The taps and the corrections of an account, each in ascending order of their numbers.
    pub fn of(account: u32, taps: Vec<Tap>, fixes: Vec<Fix>) -> Sets
        requires own_taps { AreTapsOf account taps.items }
        requires own_fixes { AreFixesOf account fixes.items }
        requires numbered_taps { AreNumbered tap_number MOST_TAPS taps.items }
        requires numbered_fixes { AreNumbered fix_number MOST_FIXES fixes.items }
        ensures { result ≡ record { account = account; taps = taps.items; fixes = fixes.items } }
    {
        Sets {
            account,
            taps,
            fixes,
        }
    }

    /// Whose they are.
    pub fn account(&self) -> u32
        ensures { result ≡ self.now.account }
    {
        self.account
    }

    /// The taps, in ascending order of their numbers.
    pub fn taps(&self) -> &[Tap]
        ensures value { result.now ≡ self.now.taps }
        ensures own { AreTapsOf self.now.account result.now }
        ensures numbered { AreNumbered tap_number MOST_TAPS result.now }
    {
        &self.taps
    }

    /// The corrections, in ascending order of their numbers.
    pub fn fixes(&self) -> &[Fix]
        ensures value { result.now ≡ self.now.fixes }
        ensures own { AreFixesOf self.now.account result.now }
        ensures numbered { AreNumbered fix_number MOST_FIXES result.now }
    {
        &self.fixes
    }
}
