//! A replica, which answers the lines of a partition one after another.
ghost use Rattle.std.specs.Prelude.{◌≡◌, ◌≢◌, ◌+◌, true, false, suc, OnOk, IfErr, IfSome, IfNone};
ghost use Rattle.sqlite.specs.Held.{state};
ghost use Rattle.sqlite.specs.State.{HasCleanDisk};
ghost use Rattle.pay_run.specs.Words.{tells_failure};
ghost use Rattle.pay_follow.specs.Partitions.{HasGrownByOne, publish, read_on};
ghost use Rattle.pay_follow.specs.Following.{replica, Follows, IsOwed, IsStoppedAt, IfRead, IfUnpublished, HasStopped};
ghost use Rattle.pay_follow.specs.declared.stop.Stop.TheVariants.{NoMorePlaces};

use crate::answered::Answered;
use crate::partition::{Compares, Partition};
use crate::stop::{LogFault, Stop};
use pay_close::NoWatch;
use pay_ledger::Ledger;
use pay_rules::Fares;
use pay_run::answer_line;
use pay_shard::{LocalDesk, Memory};
use pay_wire::{Refusal, SpelledReply, send};
use pay_zone::Zone;
use sqlite::Alter;
use std::alloc::Global;
use std::mem::swap;

/// The failure that a reply tells of, so that another replica may not give it.
fn failure(reply: &SpelledReply) -> Option<Refusal>
    ensures none { IfNone result (tells_failure reply.now ≡ false) }
    ensures some { IfSome result (λ why. (reply.now ≡ SpelledReply.No why) × (tells_failure reply.now ≡ true)) }
{
    match reply {
        SpelledReply::No(
            why @ (Refusal::Store
            | Refusal::DeskFault
            | Refusal::NotKept
            | Refusal::NotOver
            | Refusal::Memory),
        ) => Some(*why),
        _ => None,
    }
}

/// Compares the reply to the line that was read last, and publishes it.
pub(crate) fn publish_reply<P: Partition, C: Compares>(
    partition: &mut P,
    compares: &mut C,
    reply: &[u8],
) -> Result<(), LogFault>
    ensures same { P.origin partition.new ≡ P.origin partition.old }
    ensures published { OnOk result (P.parts partition.new ≡ publish (P.parts partition.old) reply.now) }
    ensures last { (P.parts partition.new).last ≡ (P.parts partition.old).last }
{
    compares.compare(partition.last(), reply)?;
    partition.publish(reply)
}

/// Reads the next line, answers it, and publishes the reply under its place.
fn follow_line<F: Fares, M: Memory, S: Alter, P: Partition, C: Compares>(
    alloc: Global,
    partition: &mut P,
    compares: &mut C,
    zone: &Zone<'_>,
    desk: &mut LocalDesk<F, M>,
    ledger: &mut Ledger<S>,
    answered: &mut Answered,
) -> Result<(), Stop>
    ensures same { P.origin partition.new ≡ P.origin partition.old }
    ensures follows { OnOk result (Follows S.Store (P.HasLine (P.origin partition.old)) zone.now
        (replica desk.old.shard ledger.old (P.parts partition.old)) (replica desk.new.shard ledger.new (P.parts partition.new))) }
    ensures one { OnOk result (HasGrownByOne (P.parts partition.old) (P.parts partition.new)) }
    ensures clean { HasCleanDisk (state S.Store ledger.new) → HasCleanDisk (state S.Store ledger.old) }
    ensures stopped { IfErr result (λ stop. IsStoppedAt stop (P.parts partition.old) (P.parts partition.new)) }
    ensures stays { IfErr result (λ stop. IfRead stop (replica desk.old.shard ledger.old (P.parts partition.old)) (replica desk.new.shard ledger.new (P.parts partition.new))) }
    ensures owed { IfErr result (λ stop. IfUnpublished stop (Follows S.Store (P.HasLine (P.origin partition.old)) zone.now
        (replica desk.old.shard ledger.old (P.parts partition.old)) (replica desk.new.shard ledger.new (publish (read_on (P.parts partition.old)) answered.new.reply.items)))) }
    ensures never { IfErr result (λ stop. stop ≢ NoMorePlaces) }
{
    if let Err(fault) = partition.read(&mut answered.next) {
        return Err(Stop::Read(fault));
    }
    swap(&mut answered.line, &mut answered.next);
    let reply = answer_line(alloc, &answered.line, zone, desk, ledger, &mut NoWatch);
    if let Some(why) = failure(&reply) {
        return Err(Stop::Unanswered(why));
    }
    answered.reply.clear();
    if let Err(_) = send(&mut answered.reply, &reply) {
        return Err(Stop::Memory);
    }
    match publish_reply(partition, compares, &answered.reply) {
        Ok(()) => Ok(()),
        Err(fault) => Err(Stop::Unpublished(fault)),
    }
}

/// Answers the lines of a partition over a shard and a ledger, one after another, and publishes each reply under its line's place, until
/// something fails.
pub fn follow<F: Fares, M: Memory, S: Alter, P: Partition, C: Compares>(
    alloc: Global,
    partition: &mut P,
    compares: &mut C,
    zone: &Zone<'_>,
    desk: &mut LocalDesk<F, M>,
    ledger: &mut Ledger<S>,
    answered: &mut Answered,
) -> Stop
    ensures same { P.origin partition.new ≡ P.origin partition.old }
    ensures followed { HasStopped S.Store (P.HasLine (P.origin partition.old)) zone.now
        (replica desk.old.shard ledger.old (P.parts partition.old)) (replica desk.new.shard ledger.new (P.parts partition.new)) result }
    ensures clean { HasCleanDisk (state S.Store ledger.new) → HasCleanDisk (state S.Store ledger.old) }

    // A reply that was not published is there to be published.
    ensures owed { IfUnpublished result (IsOwed S.Store (P.HasLine (P.origin partition.old)) zone.now
        (replica desk.old.shard ledger.old (P.parts partition.old)) (replica desk.new.shard ledger.new (P.parts partition.new)) answered.new.reply.items) }
    ensures all_places { result ≡ NoMorePlaces → (P.parts partition.new).last ≡ (P.parts partition.old).last + 18446744073709551615 }
{
    for _ in 0..u64::MAX {
        if let Err(stop) = follow_line(alloc, partition, compares, zone, desk, ledger, answered) {
            return stop;
        }
    }
    Stop::NoMorePlaces
}
