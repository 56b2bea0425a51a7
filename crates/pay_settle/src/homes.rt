ghost use Rattle.std.specs.Prelude.{◌≡◌, ◌≢◌, ◌⊎◌, ◌++◌, ◌∷◌, [], ℕ, cond, length, List, Some, None, IfErr, OnOk};
ghost use Rattle.std.specs.BTreeMap as tree;
ghost use Rattle.std.specs.Ordering.{nat_cmp};
ghost use Rattle.pay_settle.specs.Standing.{AreHomesOf};
ghost use Rattle.pay_settle.specs.Refused.{IsElsewhere, IsWhyShared};

use crate::fault::SettleFault;
use std::alloc::Global;
use std::collections::BTreeMap;

/// In which ledger each account stands.
#[derive(Drop)]
pub struct Homes {
    /// The place of its ledger, from 0 on.
    pub places: BTreeMap<u32, usize>,
}

impl Homes {
    /// No ledger.
    pub fn new(alloc: Global) -> Homes
        ensures { AreHomesOf [] result }
    {
        Homes {
            places: BTreeMap::new(alloc),
        }
    }

    /// An account stands in the ledger at a place. It is refused where it stands in another one.
    fn put(&mut self, place: usize, account: u32) -> Result<(), SettleFault>
        ensures put { OnOk result ((other : ℕ) → tree.get nat_cmp self.new.places other ≡ cond (tree.is_at (nat_cmp account) other) (Some place) (tree.get nat_cmp self.old.places other)) }
        ensures alone { OnOk result ((tree.get nat_cmp self.old.places account ≡ None) ⊎ (tree.get nat_cmp self.old.places account ≡ Some place)) }
        ensures refused { IfErr result (λ fault. IsElsewhere fault account place (tree.get nat_cmp self.old.places account)) }
    {
        match self.places.get(&account).copied() {
            Some(home) if home != place => Err(SettleFault::Shared {
                account,
                first: home,
                second: place,
            }),
            Some(_) => Ok(()),
            None => match self.places.insert(account, place) {
                Ok(_) => Ok(()),
                Err(_) => Err(SettleFault::Memory),
            },
        }
    }

    /// The accounts of one more ledger, which stands after those before it. It is refused where one of them stands in one of these: the
    /// first such account is told, beside both places. After an `Err` nothing more is known.
    pub fn add(&mut self, place: usize, accounts: &[u32]) -> Result<(), SettleFault>
        ensures ok { (ledgers : List (List ℕ)) → place ≡ length ledgers → AreHomesOf ledgers self.old → OnOk result (AreHomesOf (ledgers ++ accounts.now ∷ []) self.new) }
        ensures refused { (ledgers : List (List ℕ)) → place ≡ length ledgers → AreHomesOf ledgers self.old → IfErr result (IsWhyShared (ledgers ++ accounts.now ∷ [])) }
    {
        for account in accounts {
            self.put(place, *account)?;
        }
        Ok(())
    }
}
