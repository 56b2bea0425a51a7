//! Desks that have what the lines of journals give back.
ghost use Rattle.std.specs.Prelude.{◌≡◌, ◌+◌, [], None, length, IfOk, IfErr, OnOk};
ghost use Rattle.std.specs.Arc.{arc_value};
ghost use Rattle.pay_session.specs.Words.{line_requests, rest_of};
ghost use Rattle.pay_run.specs.Machine.{new_machine};
ghost use Rattle.pay_run.specs.Past.{AreReplayed, HasCommands, IsReplayedAfter, IsNotReplayedAfter, IsReplayOf, IsNotReplayed};

use crate::lines::new_desk;
use pay_journal::{ReplayFault, Replayed, replay};
use pay_rules::Fares;
use pay_shard::LocalDesk;
use pay_tables::Editions;
use pay_zone::Zone;
use std::alloc::Global;
use std::sync::Arc;

/// A desk that has accepted the whole lines of a journal, beginning with no accounts, and how many lines and bytes these are. What
/// stands after the last newline is no line. Each line has to be a tap or a correction that is accepted, or was before.
pub fn replayed_desk<F: Fares>(
    alloc: Global,
    editions: Arc<Editions>,
    zone: &Zone<'_>,
    past: &[u8],
) -> Result<(LocalDesk<F>, Replayed), ReplayFault>
    ensures replayed { IfOk result (λ r. IsReplayOf zone.now (arc_value editions) past.now r.0.shard r.1) }
    ensures stopped { IfErr result (IsNotReplayed (new_machine zone.now (arc_value editions) None) (line_requests past.now)) }
{
    let mut desk = new_desk(alloc, editions);
    let ended = replay(past, zone, &mut desk);
    // The journal's entries stand at their tickets, and each was asked for by its line.
    let _ = desk.shard();
    pay_journal::laws::one_line();
    let replayed = ended?;
    Ok((desk, replayed))
}

/// Takes the whole lines of one text more, after what a desk has. What was replayed before a line that is not accepted stays.
pub fn replay_more<F: Fares>(
    desk: &mut LocalDesk<F>,
    zone: &Zone<'_>,
    text: &[u8],
) -> Result<Replayed, ReplayFault>
    ensures sized { IfOk result (λ it. it.bytes + length (rest_of text.now) ≡ length text.now) }
    ensures replayed { OnOk result (IsReplayedAfter zone.now desk.old desk.new (line_requests text.now)) }
    ensures stopped { IfErr result (IsNotReplayedAfter zone.now desk.old (line_requests text.now)) }
{
    let ended = replay(text, zone, desk);
    let _ = desk.shard();
    pay_journal::laws::one_line();
    ended
}

/// What was replayed to a desk is accepted, and its shard's journal has just the commands of that.
pub fn replayed_lines<F: Fares>(desk: &LocalDesk<F>)
    ensures accepted { AreReplayed desk.now }
    ensures commands { HasCommands desk.now }
{
    let _ = desk.shard();
    pay_journal::laws::one_line();
}
