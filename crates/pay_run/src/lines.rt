//! Runs of lines: each line of a reader is answered, and what is newly accepted is kept.
ghost use Rattle.std.specs.Prelude.{◌≡◌, false, [], IfOk, IfErr, IfSome};
ghost use Rattle.std.specs.Arc.{arc_value};
ghost use Rattle.std.specs.FinMap as map;
ghost use Rattle.jiff.specs.declared.tz.timezone.TimeZone.{TimeZone as Zone};
ghost use Rattle.sqlite.specs.Held.{state};
ghost use Rattle.sqlite.specs.State.{HasCleanDisk};
ghost use Rattle.pay_journal.specs.Words.{CanFail};
ghost use Rattle.pay_session.specs.Words.{IsBroken, IsLastFill, ShowsNothing};
ghost use Rattle.pay_run.specs.Past.{HasReplayed};
ghost use Rattle.pay_run.specs.LineRuns.{LinesEnd, LinesFail, after, before, with_ledger_in, without_ledger};

use pay_close::{LedgerTill, Watch};
use pay_journal::{Keeper, KeptDesk};
use pay_ledger::Ledger;
use pay_rules::Fares;
use pay_session::{Done, KnownReader, SessionFault, session};
use pay_shard::LocalDesk;
use pay_tables::Editions;
use pay_till::NoTill;
use pay_wire::KnownWriter;
use pay_zone::Zone;
use sqlite::Alter;
use std::alloc::Global;
use std::sync::Arc;

/// A desk over one shard without accounts. It takes no memory.
pub fn new_desk<F: Fares>(alloc: Global, editions: Arc<Editions>) -> LocalDesk<F>
    ensures editions { result.shard.editions ≡ arc_value editions }
    ensures base { result.shard.base ≡ map.empty }
    ensures journal { result.shard.journal ≡ [] }
    ensures none { (zone : Zone) → HasReplayed zone (arc_value editions) result [] }
{
    match LocalDesk::new(alloc, editions, Vec::new(alloc)) {
        Ok(desk) => desk,
        Err(_) => unreachable!(),
    }
}

/// What came of a run of lines.
#[derive(Drop)]
pub struct Ran<F: Fares, K: Keeper> {
    /// How its session ended.
    pub ended: Result<Done, SessionFault>,
    /// The desk that has what was accepted. If it is stuck, something was not kept, or not settled.
    pub desk: KeptDesk<F, K>,
}

/// Answers the lines of a reader, beginning with what a desk has, and closes days into a ledger, if a watch lets it. A keeper keeps the line of each tap
/// and each correction that is newly accepted, before its reply is written, and in the end all of them are settled. This is the
/// whole run: for a reader that tells its bytes and a writer that tells what it holds, what is written is, for the lines of the
/// input in order, the replies of the machine to what they ask for; the ledger is then the machine's; and the keeper has the lines
/// of what was newly accepted. All are one function of the input, the zone, the desk and the ledger before it, where no reply is
/// 43, 44, 48, 49 or 90. Where a write of the ledger's disk fails, its connection may shut: the replies are still the machine's, by
/// what failed for each line, and nothing is said of the ledger. Where the disk does not return what was written, nothing is said
/// of the run.
pub fn run_lines<F: Fares, R: KnownReader, W: KnownWriter, S: Alter, K: Keeper, C: Watch>(
    alloc: Global,
    reader: &mut R,
    writer: &mut W,
    zone: &Zone<'_>,
    desk: LocalDesk<F>,
    keeper: K,
    ledger: &mut Ledger<S>,
    watch: &mut C,
) -> Ran<F, K>
    ensures ends { LinesEnd (with_ledger_in S.Store K.Keeper R.remaining W.contents) zone.now desk (before keeper ledger.old reader.old writer.old)
        (after result.desk ledger.new reader.new writer.new) result.ended }
    ensures fails { LinesFail (with_ledger_in S.Store K.Keeper R.remaining W.contents) zone.now desk (before keeper ledger.old reader.old writer.old)
        (after result.desk ledger.new reader.new writer.new) result.ended }
    ensures clean { IfSome (R.remaining reader.old) (λ _. HasCleanDisk (state S.Store ledger.new) → HasCleanDisk (state S.Store ledger.old)) }
    ensures settled { result.desk.stuck ≡ false → (settled : K) × K.IsSettled settled × (K.holds settled ≡ result.desk.holds) }
    ensures ended { IfOk result.ended (λ done. done.quit ≡ false → IsLastFill R.MayAnswer (ShowsNothing R.MayAnswer) reader.old reader.new) }
    ensures cause { IfErr result.ended (λ fault. IsBroken R.MayAnswer W.MayAnswer fault reader.old reader.new writer.new) }
{
    let mut desk = KeptDesk::begin(desk, keeper);
    let mut till = LedgerTill::new(alloc, ledger, watch);
    let ended = session(reader, writer, zone, &mut desk, &mut till);
    // Whether this failed the desk tells too.
    let _ = desk.settle();
    // The journal's entries stand at their tickets, each was asked for by its line, and what one shard brings for a close is of all
    // accounts.
    let _ = desk.shard();
    pay_journal::laws::one_line();
    pay_close::laws::one_shard();
    Ran { ended, desk }
}

/// The same without a ledger: nothing is closed, and each close is answered by `NO 34 NotHere`.
pub fn run_lines_without_ledger<F: Fares, R: KnownReader, W: KnownWriter, K: Keeper>(
    reader: &mut R,
    writer: &mut W,
    zone: &Zone<'_>,
    desk: LocalDesk<F>,
    keeper: K,
) -> Ran<F, K>
    ensures ends { LinesEnd (without_ledger K.Keeper R.remaining W.contents) zone.now desk (before keeper tt reader.old writer.old)
        (after result.desk tt reader.new writer.new) result.ended }
    ensures fails { LinesFail (without_ledger K.Keeper R.remaining W.contents) zone.now desk (before keeper tt reader.old writer.old)
        (after result.desk tt reader.new writer.new) result.ended }
    ensures settled { result.desk.stuck ≡ false → (settled : K) × K.IsSettled settled × (K.holds settled ≡ result.desk.holds) }
    ensures ended { IfOk result.ended (λ done. done.quit ≡ false → IsLastFill R.MayAnswer (ShowsNothing R.MayAnswer) reader.old reader.new) }
    ensures cause { IfErr result.ended (λ fault. IsBroken R.MayAnswer W.MayAnswer fault reader.old reader.new writer.new) }
{
    let mut kept = KeptDesk::begin(desk, keeper);
    let ended = session(reader, writer, zone, &mut kept, &mut NoTill);
    let _ = kept.settle();
    let _ = kept.shard();
    pay_journal::laws::one_line();
    Ran { ended, desk: kept }
}
