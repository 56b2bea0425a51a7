//! A desk over a shard that keeps the lines of what it accepts.
ghost use Rattle.std.specs.Prelude.{◌≡◌, ◌≢◌, ◌⊎◌, ◌↔◌, ℕ, false, true, List, ◌∷◌, [], ◌++◌, length, Option, IfOk, IfErr, OnOk, OnErr, IsTrue, Err};
ghost use Rattle.std.specs.Io.KnownBytes.{Appends, Keeps};
ghost use Rattle.pay_rules.specs.InTurn.{IsIn};
ghost use Rattle.pay_wire.specs.Words.{AppendsFront};
ghost use Rattle.pay_shard.specs.Words.{IsForShards, IsHistory, IsKeptBy, AreInPlace, IsAfterAll, IsNoneOf, NothingIsLost, commands_of, transcript_of, with_items, with_waiting, without};
ghost use Rattle.pay_shard.specs.declared.desk.DeskFault.TheVariants as desk_fault;
ghost use Rattle.pay_shard.specs.declared.item.Item.{Item};
ghost use Rattle.pay_journal.specs.KeptAnswers.{is_quotes, line_if};
ghost use Rattle.pay_journal.specs.KeptParts.{CanFail, KeepsLines, standing_of};
ghost use Rattle.pay_journal.specs.Lines.{line_of};
ghost use Rattle.pay_journal.specs.Puts.{IsPutKept, IsNotPut, is_new_answer, is_not_kept};

use crate::keeper::{Keeper, NotKept};
use crate::keeping::keep_answer;
use pay_rules::Fares;
use pay_shard::{Command, Desk, DeskFault, KeepsBlock, LocalDesk, Reply, Shard, Ticket};
use std::marker::Model;
use std::snapshot::Snapshot;

/// A desk over a shard that has a keeper keep the line of each tap and each correction that is newly accepted, before its reply
/// can be got. What could not be kept was not taken, and from then on the desk takes nothing more.
///
/// ```text
/// the shard's journal   │ first │ what was taken since        │ one item that could not be kept │
/// what the keeper holds │ began │ a line of each that was new │ a front of one line more        │
///                       ╰─────────── what is seen ────────────╯ only if the desk is stuck ──────╯
/// ```
///
/// In a contract it is the local desk as it is seen, the items and the bytes that it began with, the bytes that are held, and whether
/// it takes nothing more.
#[derive(Drop)]
pub struct KeptDesk<F: Fares, K: Keeper> {
    desk: LocalDesk<F, KeepsBlock>,
    keeper: K,
    // Whether something could not be kept.
    stuck: bool,
    // The shard as it is seen: without what could not be kept.
    seen: Snapshot<Shard<F>>,
    // The shard as this began.
    first: Snapshot<Shard<F>>,
    // The keeper as this began.
    began: Snapshot<K>,
}

impl<F: Fares, K: Keeper> Model for KeptDesk<F, K> {
    ghost use Rattle.pay_journal.specs.KeptParts.{KeptParts, kept_code, IsKeptDesk};

    ghost Value = { KeptParts };

    ghost coded = { kept_code };

    ghost view = { λ d. record {
      seen = record { shard = d.seen.value; waiting = d.desk.waiting };
      first = d.first.value.journal;
      held_first = K.holds d.began.value;
      holds = K.holds d.keeper;
      stuck = d.stuck;
    } };

    ghost invariant = { λ d. IsKeptDesk (K.HasFailed d.keeper) d.desk (record {
      seen = record { shard = d.seen.value; waiting = d.desk.waiting };
      first = d.first.value.journal;
      held_first = K.holds d.began.value;
      holds = K.holds d.keeper;
      stuck = d.stuck;
    }) };
}

impl<F: Fares, K: Keeper> KeptDesk<F, K> {
    /// A desk that goes on from a local one, and keeps lines after what a keeper holds. It forgets the journal so far, and has no more
    /// than a block of it in memory from then on.
    pub fn begin(desk: LocalDesk<F>, keeper: K) -> KeptDesk<F, K>
        ensures { result ≡ record { seen = desk; first = desk.shard.journal; held_first = K.holds keeper; holds = K.holds keeper; stuck = false } }
    {
        let _ = desk.shard().journal();
        KeptDesk {
            seen: Snapshot::of(desk.shard()),
            first: Snapshot::of(desk.shard()),
            began: Snapshot::of(&keeper),
            stuck: false,
            desk: desk.forgetting(),
            keeper,
        }
    }

    /// What keeps the lines.
    pub fn keeper(&self) -> &K
        ensures { K.holds result.now ≡ self.now.holds }
    {
        &self.keeper
    }

    /// Whether something could not be kept.
    pub fn is_stuck(&self) -> bool
        ensures value { result ≡ self.now.stuck }
        ensures cause { IsTrue result → CanFail K.HasFailed }
    {
        self.stuck
    }

    /// The shard, which has no more than a block of its journal in memory. If the desk is stuck, its journal may have one item more than
    /// is seen.
    pub fn shard(&self) -> &Shard<F>
        ensures seen { (more : List Item) × (result.now ≡ with_items self.now.seen.shard more result.now.memory) × (self.now.stuck ≡ false → more ≡ []) }
        ensures number { self.now.seen.shard.number ≡ 0 }
        ensures in_place { AreInPlace 0 self.now.seen.shard.journal }
        ensures history { IsHistory self.now.seen.shard.editions self.now.seen.shard.base self.now.seen.shard.journal }
        ensures kept { KeepsLines self.now }
        ensures memory { IsKeptBy true result.now }
    {
        self.desk.shard()
    }

    /// Has what was kept settled. A desk that is stuck is at fault.
    pub fn settle(&mut self) -> Result<(), NotKept>
        ensures seen { self.new.seen ≡ self.old.seen }
        ensures first { (self.new.first ≡ self.old.first) × (self.new.held_first ≡ self.old.held_first) }
        ensures same { Keeps self.old.holds self.new.holds }
        ensures ok { OnOk result ((self.old.stuck ≡ false) × (self.new.stuck ≡ false)) }
        ensures settled { OnOk result ((keeper : K) × K.IsSettled keeper × (K.holds keeper ≡ self.new.holds)) }
        ensures err { OnErr result (self.new.stuck ≡ true) }
    {
        if self.stuck {
            return Err(NotKept);
        }
        match self.keeper.settle() {
            Ok(()) => Ok(()),
            Err(fault) => {
                self.stuck = true;
                Err(fault)
            }
        }
    }

    /// Takes a command, as [`Desk`] says, once its line is kept if it is newly accepted, and what was kept is settled if it asks for
    /// quotes. It is refused by `NotKept` where something
    /// could not be kept, now or before: a desk that is stuck takes no command, asks its keeper for nothing, and stays as it is.
    pub fn put(&mut self, command: Command) -> Result<Ticket, DeskFault>
        requires { IsForShards 1 command }
        ensures stuck { self.old.stuck ≡ true → (result ≡ Err desk_fault.NotKept) × (self.new ≡ self.old) }
        ensures sticks { (result ≡ Err desk_fault.NotKept) ↔ (self.new.stuck ≡ true) }
        ensures added { IfOk result (λ ticket. commands_of self.new.seen.shard.journal ≡ commands_of self.old.seen.shard.journal ++ (ticket, command) ∷ []) }
        ensures later { IfOk result (λ ticket. IsAfterAll ticket (commands_of self.old.seen.shard.journal)) }
        ensures fresh { IfOk result (λ ticket. IsNoneOf ticket self.old.seen.waiting) }
        ensures waits { IfOk result (λ ticket. standing_of self.new ≡ with_waiting (self.old.seen.waiting ++ ticket ∷ []) (standing_of self.old)) }
        ensures not_added { OnErr result (commands_of self.new.seen.shard.journal ≡ commands_of self.old.seen.shard.journal) }
        ensures none_waits { OnErr result (standing_of self.new ≡ standing_of self.old) }
        ensures refused { IfErr result (λ fault. (fault ≡ desk_fault.Memory) ⊎ ((fault ≡ desk_fault.NotKept) × CanFail K.HasFailed)) }
        ensures transcript { NothingIsLost (transcript_of self.old.seen.shard) (transcript_of self.new.seen.shard) }
        ensures settled { OnOk result (is_quotes command ≡ true → (keeper : K) × K.IsSettled keeper × (K.holds keeper ≡ self.new.holds)) }
    {
        if self.stuck {
            return Err(DeskFault::NotKept);
        }
        pay_shard::laws::fronts();
        pay_shard::laws::accepted_alone();
        match put_and_keep(&mut self.desk, &mut self.keeper, command) {
            Ok(ticket) => {
                let _ = self.desk.shard().journal();
                self.seen = Snapshot::of(self.desk.shard());
                Ok(ticket)
            }
            Err(fault) => {
                self.stuck = is_not_kept(fault);
                Err(fault)
            }
        }
    }
}

/// Has a keeper do what has to be done before the answer that waits can be had.
fn keep_waiting<F: Fares, K: Keeper>(
    desk: &LocalDesk<F, KeepsBlock>,
    keeper: &mut K,
    ticket: Ticket,
    command: Command,
) -> Result<(), NotKept>
    requires { IsIn desk.now.waiting ticket }
    ensures kept { OnOk result (Appends (K.holds keeper.old) (K.holds keeper.new) (line_if (is_new_answer (transcript_of desk.now.shard ticket)) command)) }
    ensures settled { OnOk result (is_quotes command ≡ true → K.IsSettled keeper.new) }
    ensures front { OnErr result (AppendsFront (K.holds keeper.old) (K.holds keeper.new) (line_of command)) }
    ensures failed { OnErr result (K.HasFailed keeper.new) }
    ensures none { is_new_answer (transcript_of desk.now.shard ticket) ≡ false → is_quotes command ≡ false → keeper.new ≡ keeper.old }
{
    match desk.waiting(ticket) {
        Some(answer) => keep_answer(keeper, command, &answer.reply),
        None => Ok(()),
    }
}

/// Does so for a command that a desk took. The reply to what cannot be kept is dropped.
fn keep_or_drop<F: Fares, K: Keeper>(
    desk: &mut LocalDesk<F, KeepsBlock>,
    keeper: &mut K,
    ticket: Ticket,
    command: Command,
) -> Result<(), NotKept>
    requires { IsIn desk.old.waiting ticket }
    ensures shard { desk.new.shard ≡ desk.old.shard }
    ensures waits { OnOk result (desk.new.waiting ≡ desk.old.waiting) }
    ensures dropped { OnErr result (desk.new.waiting ≡ without ticket desk.old.waiting) }
    ensures kept { OnOk result (Appends (K.holds keeper.old) (K.holds keeper.new) (line_if (is_new_answer (transcript_of desk.old.shard ticket)) command)) }
    ensures settled { OnOk result (is_quotes command ≡ true → K.IsSettled keeper.new) }
    ensures front { OnErr result (AppendsFront (K.holds keeper.old) (K.holds keeper.new) (line_of command)) }
    ensures failed { OnErr result (K.HasFailed keeper.new) }
    ensures none { is_new_answer (transcript_of desk.old.shard ticket) ≡ false → is_quotes command ≡ false → keeper.new ≡ keeper.old }
{
    match keep_waiting(desk, keeper, ticket, command) {
        Ok(()) => Ok(()),
        Err(fault) => {
            let _ = desk.get(ticket);
            Err(fault)
        }
    }
}

/// Hands a command to a desk, and has a keeper do what has to be done before its reply can be got.
fn put_and_keep<F: Fares, K: Keeper>(
    desk: &mut LocalDesk<F, KeepsBlock>,
    keeper: &mut K,
    command: Command,
) -> Result<Ticket, DeskFault>
    requires { IsForShards 1 command }
    ensures put { IfOk result (λ ticket. IsPutKept ticket command desk.old desk.new (K.holds keeper.old) (K.holds keeper.new)) }
    ensures settled { OnOk result (is_quotes command ≡ true → K.IsSettled keeper.new) }
    ensures not_put { IfErr result (λ fault. IsNotPut (K.HasFailed keeper.new) fault command desk.old desk.new (K.holds keeper.old) (K.holds keeper.new)) }
{
    pay_shard::laws::put_then_get::<LocalDesk<F, KeepsBlock>>();
    let ticket = desk.put(command)?;
    match keep_or_drop(desk, keeper, ticket, command) {
        Ok(()) => Ok(ticket),
        Err(_) => Err(DeskFault::NotKept),
    }
}

/// Whether a desk's fault is that something could not be kept.
fn is_not_kept(fault: DeskFault) -> bool
    ensures { result ≡ is_not_kept fault }
{
    matches!(fault, DeskFault::NotKept)
}

impl<F: Fares, K: Keeper> Desk for KeptDesk<F, K> {
    ghost use Rattle.pay_journal.specs.KeptParts.{Beginning, CanFail, kept_parts};

    ghost Origin = { Beginning };

    ghost parts = { kept_parts (CanFail K.HasFailed) };

    fn shards(&self) -> u8 {
        1
    }

    fn put(&mut self, command: Command) -> Result<Ticket, DeskFault> {
        KeptDesk::put(self, command)
    }

    fn get(&mut self, ticket: Ticket) -> Result<Reply, DeskFault> {
        pay_shard::laws::fronts();
        self.desk.get(ticket)
    }
}
