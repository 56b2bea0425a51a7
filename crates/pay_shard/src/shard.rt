ghost use Rattle.std.specs.Prelude.{Bool, ◌≡◌, ◌+◌, ◌-◌, ◌≤◌, ◌<◌, map as each, [], length, max, None, Some, IsOk, IfOk, IfErr, IfSome, IfNone, OnOk, OnErr, ◌++◌, ◌∷◌};
ghost use Rattle.std.specs.Arc.{arc_value};
ghost use Rattle.std.specs.FinMap as map;
ghost use Rattle.std.specs.List.{IsDistinct};
ghost use Rattle.std.specs.Ordering.{nat_cmp, eq_by_cmp};
ghost use Rattle.pay_rules.specs.Accepted.{nothing};
ghost use Rattle.pay_rules.specs.State.{accepted_of, ArePriced};
ghost use Rattle.pay_shard.specs.declared.limits.TheConstants.{BLOCK_ITEMS};
ghost use Rattle.pay_shard.specs.Held.{state_of};
ghost use Rattle.pay_shard.specs.Machine.{is_memory};
ghost use Rattle.pay_shard.specs.Runs.{IsHistory, IsMarkedRightly};
ghost use Rattle.pay_shard.specs.ShardParts.{state_now, answers_given, next_answer, item_of, with_item, with_memory, IsKeptBy};

use crate::accounts::Accounts;
use crate::item::{Entry, Item};
use crate::journal::Journal;
use crate::reply::{Answer, Reply};
use pay_rules::Fares;
use pay_tables::Editions;
use std::alloc::{AllocError, AllocFailed, Global};
use std::marker::Model;
use std::snapshot::Snapshot;
use std::sync::Arc;

/// A shard: its accounts, and the journal of what was asked of it. What the accounts have accepted is the replay of the
/// journal from what they had accepted when it began. In a contract it is its number, the fare file, that beginning, the
/// journal, and what of it is in memory.
#[derive(Drop)]
pub struct Shard<F: Fares> {
    number: u8,
    accounts: Accounts<F>,
    journal: Journal,
    base: Snapshot<Accounts<F>>,
}

impl<F: Fares> Model for Shard<F> {
    ghost use Rattle.std.specs.Prelude.{◌≡◌};
    ghost use Rattle.pay_shard.specs.Runs.{replay, IsHistory};
    ghost use Rattle.pay_shard.specs.ShardParts.{ShardParts, shard_code};

    ghost Value = { ShardParts };

    ghost coded = { shard_code };

    ghost view = { λ s. record {
      number = s.number;
      editions = s.accounts.editions;
      base = s.base.value.state;
      journal = s.journal.items;
      memory = s.journal.memory;
    } };

    ghost invariant = { λ s. (s.accounts.state ≡ replay s.accounts.editions s.base.value.state s.journal.items)
        × IsHistory s.accounts.editions s.base.value.state s.journal.items };
}

/// Whether a reply says that memory was refused.
fn is_memory(reply: &Reply) -> bool
    ensures { result ≡ is_memory reply.now }
{
    matches!(reply, Reply::Memory)
}

impl<F: Fares> Shard<F> {
    /// A shard of this number with an empty journal, which begins with accounts of distinct numbers from 1, each priced by
    /// this fare file. `Memory` gives the accounts back; a shard of none takes no memory.
    pub fn new(
        alloc: Global,
        number: u8,
        editions: Arc<Editions>,
        base: Vec<F>,
    ) -> Result<Shard<F>, AllocFailed<Vec<F>>>
        requires distinct { IsDistinct (eq_by_cmp nat_cmp) (each F.account base.items) }
        requires priced { ArePriced F.account (F.IsPricedBy (arc_value editions)) base.items }
        ensures number { IfOk result (λ shard. shard.number ≡ number) }
        ensures editions { IfOk result (λ shard. shard.editions ≡ arc_value editions) }
        ensures base { IfOk result (λ shard. shard.base ≡ state_of F.account F.accepted base.items) }
        ensures journal { IfOk result (λ shard. shard.journal ≡ []) }
        ensures memory { IfOk result (λ shard. shard.memory ≡ record { forgotten = 0; room = 0 }) }
        ensures given_back { IfErr result (λ failed. failed.value ≡ base) }
        ensures of_none { base.items ≡ [] → IsOk result }
    {
        let accounts = Accounts::new(alloc, editions, base)?;
        Ok(Shard {
            number,
            base: Snapshot::of(&accounts),
            accounts,
            journal: Journal::new(alloc),
        })
    }

    /// Its number.
    pub fn number(&self) -> u8
        ensures { result ≡ self.now.number }
    {
        self.number
    }

    /// The fare file by which it prices.
    pub fn editions(&self) -> &Editions
        ensures { result.now ≡ self.now.editions }
    {
        self.accounts.editions()
    }

    /// How many accounts have accepted something.
    pub fn accounts(&self) -> usize
        ensures { result ≡ map.len (state_now self.now) }
    {
        self.accounts.count()
    }

    /// How many more items the journal takes without memory.
    pub fn room(&self) -> usize
        ensures { result ≡ self.now.memory.room }
    {
        self.journal.room()
    }

    /// Makes room for so many more items. An `Err` is out of memory.
    pub fn reserve(&mut self, items: usize) -> Result<(), AllocError>
        ensures same { self.new ≡ with_memory self.old self.new.memory }
        ensures forgotten { self.new.memory.forgotten ≡ self.old.memory.forgotten }
        ensures ok { OnOk result (items ≤ self.new.memory.room) }
        ensures no_less { self.old.memory.room ≤ self.new.memory.room }
        ensures most { self.new.memory.room ≤ max self.old.memory.room (items + (BLOCK_ITEMS - 1)) }
        ensures succeeds { items ≤ self.old.memory.room → IsOk result }
        ensures there { items ≤ self.old.memory.room → self.new ≡ self.old }
    {
        self.journal.reserve(items)
    }

    /// Makes room for one more item; where it forgets, in place of all that there are. An `Err` is out of memory.
    pub fn make_room(&mut self, forgets: bool) -> Result<(), AllocError>
        ensures same { self.new ≡ with_memory self.old self.new.memory }
        ensures ok { OnOk result (0 < self.new.memory.room) }
        ensures starved { OnErr result (self.old.memory.room ≡ 0) }
        ensures kept { IsKeptBy forgets self.old → IsKeptBy forgets self.new }
    {
        if forgets && self.room() == 0 {
            self.forget();
        }
        self.reserve(1)
    }

    /// Forgets the items of the journal, whose memory is given back. The accounts are still their replay.
    pub fn forget(&mut self)
        ensures { self.new ≡ with_memory self.old (record { forgotten = length self.old.journal; room = 0 }) }
    {
        self.journal.forget();
    }

    /// All that was asked, in order.
    pub fn journal(&self) -> &Journal
        ensures value { result.now.items ≡ self.now.journal }
        ensures memory { result.now.memory ≡ self.now.memory }
        ensures history { IsHistory self.now.editions self.now.base result.now.items }
    {
        &self.journal
    }

    /// All that was asked, in order, without the accounts.
    pub fn into_journal(self) -> Journal
        ensures value { result.items ≡ self.journal }
        ensures memory { result.memory ≡ self.memory }
        ensures history { IsHistory self.editions self.base result.items }
    {
        self.journal
    }

    /// An account by its number. `None` is given only where it has accepted nothing.
    pub fn account(&self, number: u32) -> Option<&F>
        ensures own { IfSome result (λ it. F.account it.now ≡ number) }
        ensures numbered { IfSome result (λ it. 1 ≤ F.account it.now) }
        ensures priced_by { IfSome result (λ it. F.IsPricedBy self.now.editions it.now) }

        // It is lent just where the replay of the journal has it, as it is there.
        ensures some { IfSome result (λ it. map.get (state_now self.now) number ≡ Some (F.accepted it.now)) }
        ensures accepted { IfSome result (λ it. F.accepted it.now ≡ accepted_of (state_now self.now) number) }
        ensures none { IfNone result (map.get (state_now self.now) number ≡ None) }
        ensures nothing { IfNone result (accepted_of (state_now self.now) number ≡ nothing) }
    {
        self.accounts.get(number)
    }

    /// Answers an entry, which is one more item of the journal. Where memory for it is refused, the item is so marked, and
    /// the accounts are as before; what is to be refused is refused all the same.
    pub fn apply(&mut self, entry: Entry) -> Answer
        requires { 0 < self.old.memory.room }
        ensures journal { self.new ≡ with_item self.old (item_of entry (is_memory result.reply)) self.new.memory }
        ensures forgotten { self.new.memory.forgotten ≡ self.old.memory.forgotten }
        ensures room { self.new.memory.room ≡ self.old.memory.room - 1 }
        ensures kept { (forgets : Bool) → IsKeptBy forgets self.old → IsKeptBy forgets self.new }
        ensures answer { result ≡ next_answer self.old (item_of entry (is_memory result.reply)) }
        ensures answers { answers_given self.new ≡ answers_given self.old ++ result ∷ [] }
        ensures refusals { IsMarkedRightly self.old.editions (state_now self.old) (item_of entry (is_memory result.reply)) }
    {
        let entry = &entry;
        let place = self.journal.len();
        let reply = self.accounts.answer(entry.command.asked());
        let item = Item {
            entry: *entry,
            refused_memory: is_memory(&reply),
        };
        self.journal.push(item);
        Answer {
            shard: self.number,
            place,
            ticket: entry.ticket,
            command: entry.command,
            reply,
        }
    }
}
