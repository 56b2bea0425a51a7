//! A gate that keeps lines.
ghost use Rattle.std.specs.Prelude.{◌≡◌, true, false, not, IsTrue, List, [], ◌++◌, OnOk, OnErr};
ghost use Rattle.std.specs.Io.KnownBytes.{Appends};
ghost use Rattle.pay_wire.specs.Words.{AppendsFront};
ghost use Rattle.pay_journal.specs.Words.{line_of, is_quotes, CanFail};
ghost use Rattle.pay_lanes.specs.Words.{Passed, passing};
ghost use Rattle.pay_serve.specs.Keeping.{is_spared, kept_line};
ghost use Rattle.pay_serve.specs.KeepingGates.{HoldsPassed};

use crate::limits::SPARED_LANE;
use pay_journal::{Keeper, NotKept, keep_answer};
use pay_lanes::{Gate, Load};
use pay_shard::{Answer, Asked, Entry};
use std::marker::Model;
use std::snapshot::Snapshot;
use std::sync::Wait;

/// A gate that has a keeper keep the line of each tap and each correction that is newly accepted, before the lane can have the
/// answer. The commands of one lane are spared: those are kept already. What could not be kept does not pass, and nothing after
/// it. What passed is forgotten. The keeper is told what the worker has on hand too. In a contract it is the bytes that the keeper held
/// when it began, those that it holds, and whether something could not be kept.
#[derive(Drop)]
pub struct KeepingGate<K: Keeper> {
    keeper: K,
    stuck: bool,
    began: Snapshot<K>,
}

impl<K: Keeper> Model for KeepingGate<K> {
    ghost use Rattle.std.specs.Prelude.{IsTrue};
    ghost use Rattle.pay_serve.specs.KeepingGates.{GateParts, gate_code};

    ghost Value = { GateParts };

    ghost coded = { gate_code };

    ghost view = { λ g. record {
      held_first = K.holds g.began.value;
      holds = K.holds g.keeper;
      stuck = g.stuck;
    } };

    ghost invariant = { λ g. IsTrue g.stuck → K.HasFailed g.keeper };
}

impl<K: Keeper> KeepingGate<K> {
    /// A gate that keeps lines after what a keeper holds, but not those of the spared lane.
    pub fn begin(keeper: K) -> KeepingGate<K>
        ensures is { result ≡ record { held_first = K.holds keeper; holds = K.holds keeper; stuck = false } }
        ensures none { HoldsPassed K.holds K.HasFailed K.IsSettled result [] false }
    {
        KeepingGate {
            began: Snapshot::of(&keeper),
            keeper,
            stuck: false,
        }
    }

    /// Whether something could not be kept.
    pub fn is_stuck(&self) -> bool
        ensures value { result ≡ self.now.stuck }
        ensures cause { IsTrue result → CanFail K.HasFailed }
    {
        self.stuck
    }
}

/// Whether an entry is a tap or a correction of the spared lane, the line of which was kept before.
fn is_spared(entry: &Entry) -> bool
    ensures { result ≡ is_spared entry.now }
{
    entry.lane == SPARED_LANE && matches!(entry.command.asked(), Asked::Tap(_) | Asked::Fix(_))
}

/// Has a keeper do what has to be done before an entry's answer passes, but for what is spared.
fn keep_first<K: Keeper>(keeper: &mut K, entry: &Entry, answer: &Answer) -> Result<(), NotKept>
    ensures kept { OnOk result (Appends (K.holds keeper.old) (K.holds keeper.new) (kept_line (entry.now, answer.now))) }
    ensures settled { OnOk result (is_quotes entry.now.command ≡ true → K.IsSettled keeper.new) }
    ensures front { OnErr result (AppendsFront (K.holds keeper.old) (K.holds keeper.new) (line_of entry.now.command)) }
    ensures failed { OnErr result (K.HasFailed keeper.new) }
{
    if is_spared(entry) {
        return Ok(());
    }
    keep_answer(keeper, entry.command, &answer.reply)
}

impl<K: Keeper> Gate for KeepingGate<K> {
    ghost use Rattle.pay_serve.specs.KeepingGates.{HoldsPassed};

    ghost Holds = { HoldsPassed K.holds K.HasFailed K.IsSettled };

    ghost began = { λ g. g.held_first };

    ghost forgets = { true };

    fn forgets() -> bool {
        true
    }

    fn before_job<R: Wait>(&mut self, _rt: &R, _shard: u8, _entry: &Entry) {}

    // The trait's clauses, and when it is false.
    fn after_job<R: Wait>(&mut self, _rt: &R, load: Load, entry: &Entry, answer: &Answer) -> bool
        ensures passed { (passed : List Passed) → HoldsPassed K.holds K.HasFailed K.IsSettled self.old passed false
            → HoldsPassed K.holds K.HasFailed K.IsSettled self.new (passed ++ passing result entry.now answer.now) (not result) }
        ensures shut { self.new.stuck ≡ not result }
        ensures stays_shut { IsTrue self.old.stuck → self.new ≡ self.old }
        ensures began { self.new.held_first ≡ self.old.held_first }
    {
        if self.stuck {
            return false;
        }
        self.keeper.tell(load.accounts, load.waiting);
        match keep_first(&mut self.keeper, entry, answer) {
            Ok(()) => true,
            Err(_) => {
                self.stuck = true;
                false
            }
        }
    }
}
