//! One line, answered by itself.
ghost use Rattle.std.specs.Prelude.{◌≡◌};
ghost use Rattle.sqlite.specs.Held.{state};
ghost use Rattle.sqlite.specs.State.{HasCleanDisk};
ghost use Rattle.pay_run.specs.OneLine.{AnswersLine};

use pay_close::{LedgerTill, Watch};
use pay_ledger::Ledger;
use pay_rules::Fares;
use pay_session::{answer, request_of};
use pay_shard::{LocalDesk, Memory};
use pay_wire::SpelledReply;
use pay_zone::Zone;
use sqlite::Alter;
use std::alloc::Global;

/// Answers one line, given without its newline, over a shard, and closes days into a ledger, if a watch lets it. The reply is that of
/// the machine. It has no effect if it is 43, 44, 49 or 90. A `QUIT` is answered as any other line.
pub fn answer_line<F: Fares, M: Memory, S: Alter, C: Watch>(
    alloc: Global,
    line: &[u8],
    zone: &Zone<'_>,
    desk: &mut LocalDesk<F, M>,
    ledger: &mut Ledger<S>,
    watch: &mut C,
) -> SpelledReply
    ensures answered { AnswersLine S.Store zone.now (desk.old.shard, ledger.old) (desk.new.shard, ledger.new) line.now result }
    ensures clean { HasCleanDisk (state S.Store ledger.new) → HasCleanDisk (state S.Store ledger.old) }
    ensures editions { desk.new.shard.editions ≡ desk.old.shard.editions }
{
    let _ = desk.shard();
    let mut till = LedgerTill::new(alloc, ledger, watch);
    let reply = answer(request_of(line), zone, desk, &mut till);
    // The journal's entries stand at their tickets, and what one shard brings for a close is of all accounts.
    let _ = desk.shard();
    pay_close::laws::one_shard();
    reply
}
