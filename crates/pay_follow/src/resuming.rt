//! A replica, which goes on where the connection to its log was lost.
ghost use Rattle.std.specs.Prelude.{◌≡◌, ◌≤◌, true, false, OnOk, IfOk, IfErr};
ghost use Rattle.sqlite.specs.Held.{state};
ghost use Rattle.sqlite.specs.State.{HasCleanDisk};
ghost use Rattle.pay_follow.specs.Partitions.{Within, publish, read_up_to};
ghost use Rattle.pay_follow.specs.Following.{replica};
ghost use Rattle.pay_follow.specs.Resuming.{Ends, GoesOn, HasEnded, moment, unopened_stop};

use crate::answered::Answered;
use crate::following::{follow, publish_reply};
use crate::partition::{Compares, Opens, Partition};
use crate::stop::{LogFault, Stop};
use pay_ledger::Ledger;
use pay_rules::Fares;
use pay_shard::{LocalDesk, Memory};
use pay_zone::Zone;
use sqlite::Alter;
use std::alloc::Global;

/// How far a replica is.
#[derive(Drop)]
pub(crate) struct Progress {
    /// The place of the line that was read last, 0 before the first.
    pub(crate) last: u64,
    /// Whether the reply to it was perhaps not published.
    pub(crate) owed: bool,
    /// That line and its reply.
    pub(crate) answered: Answered,
}

/// Whether it may be over by itself. A server that lags may know less of its log than was read.
fn passes(fault: LogFault) -> bool {
    matches!(
        fault,
        LogFault::NotReached | LogFault::NoAnswer | LogFault::Short { .. }
    )
}

/// Opens a partition after the line that was read last. It has to have that line still; and the reply to it is published, if that is owed.
fn resume<P: Partition, O: Opens<P>, C: Compares>(
    alloc: Global,
    opens: &mut O,
    compares: &mut C,
    progress: &Progress,
) -> Result<P, LogFault>
    ensures same { O.source opens.new ≡ O.source opens.old }
    ensures lines { IfOk result (λ partition. Within (P.HasLine (P.origin partition)) (O.HasLine (O.source opens.old))) }
    ensures paid { progress.now.owed ≡ false → IfOk result (λ partition. P.parts partition ≡ read_up_to progress.now.last) }
    ensures owed { progress.now.owed ≡ true → 1 ≤ progress.now.last → IfOk result (λ partition. P.parts partition ≡ publish (read_up_to progress.now.last) progress.now.answered.reply.items) }
    ensures again { 1 ≤ progress.now.last → IfOk result (λ partition. P.HasLine (P.origin partition) progress.now.last progress.now.answered.line.items) }
{
    if progress.last == 0 {
        return opens.open(0);
    }
    let mut partition = opens.open(progress.last - 1)?;
    let mut line = Vec::new(alloc);
    partition.read(&mut line)?;
    if line != progress.answered.line {
        return Err(LogFault::Changed {
            place: progress.last,
        });
    }
    if progress.owed {
        publish_reply(&mut partition, compares, &progress.answered.reply)?;
    }
    Ok(partition)
}

/// How a replica stops that has no partition open.
fn unopened(fault: LogFault, owed: bool) -> Stop
    ensures { result ≡ unopened_stop fault owed }
{
    if owed {
        Stop::Unpublished(fault)
    } else {
        Stop::Read(fault)
    }
}

/// Follows a partition until the connection to its log is lost, or it has to stop.
fn follow_once<F: Fares, M: Memory, S: Alter, P: Partition, O: Opens<P>, C: Compares>(
    alloc: Global,
    opens: &mut O,
    compares: &mut C,
    zone: &Zone<'_>,
    desk: &mut LocalDesk<F, M>,
    ledger: &mut Ledger<S>,
    progress: &mut Progress,
) -> Result<LogFault, Stop>
    ensures same { O.source opens.new ≡ O.source opens.old }
    ensures underway { OnOk result (GoesOn S.Store (O.HasLine (O.source opens.old)) zone.now
        (moment desk.old.shard ledger.old progress.old) (moment desk.new.shard ledger.new progress.new)) }
    ensures ended { IfErr result (λ stop. Ends S.Store (O.HasLine (O.source opens.old)) zone.now
        (moment desk.old.shard ledger.old progress.old) (moment desk.new.shard ledger.new progress.new) stop) }
    ensures clean { HasCleanDisk (state S.Store ledger.new) → HasCleanDisk (state S.Store ledger.old) }
{
    let mut partition = match resume(alloc, opens, compares, progress) {
        Ok(partition) => partition,
        Err(fault) if passes(fault) => return Ok(fault),
        Err(fault) => return Err(unopened(fault, progress.owed)),
    };
    let stop = follow(
        alloc,
        &mut partition,
        compares,
        zone,
        desk,
        ledger,
        &mut progress.answered,
    );
    progress.last = partition.last();
    match stop {
        Stop::Read(fault) if passes(fault) => {
            progress.owed = false;
            Ok(fault)
        }
        Stop::Unpublished(fault) if passes(fault) => {
            progress.owed = true;
            Ok(fault)
        }
        other => Err(other),
    }
}

/// Follows a partition from its first line on, over a shard and a ledger, and opens it again wherever the connection to the log is lost.
pub fn follow_on<F: Fares, M: Memory, S: Alter, P: Partition, O: Opens<P>, C: Compares>(
    alloc: Global,
    opens: &mut O,
    compares: &mut C,
    zone: &Zone<'_>,
    desk: &mut LocalDesk<F, M>,
    ledger: &mut Ledger<S>,
) -> Stop
    ensures same { O.source opens.new ≡ O.source opens.old }
    ensures followed { HasEnded S.Store (O.HasLine (O.source opens.old)) zone.now
        (replica desk.old.shard ledger.old (read_up_to 0)) (desk.new.shard, ledger.new) result }
    ensures clean { HasCleanDisk (state S.Store ledger.new) → HasCleanDisk (state S.Store ledger.old) }
{
    let mut progress = Progress {
        last: 0,
        owed: false,
        answered: Answered::new(alloc),
    };
    for _ in 0..u64::MAX {
        match follow_once::<F, M, S, P, O, C>(
            alloc,
            opens,
            compares,
            zone,
            desk,
            ledger,
            &mut progress,
        ) {
            Ok(fault) => opens.pause(fault),
            Err(stop) => return stop,
        }
    }
    Stop::NoMorePlaces
}
