//! The job `run`, by the texts of its fare file and its zone, and its journal: all that the program does below the reading of files. It has
//! two steps, [`begin`] and [`Begun::run`], between which the caller opens the ledger.
ghost use Rattle.std.specs.Prelude.{◌≡◌, ◌↔◌, ◌<◌, true, false, nat_lt, None, Some, Ok, IfOk, IfErr, OnOk, OnErr};
ghost use Rattle.std.specs.Arc.{arc_value};
ghost use Rattle.jiff.specs.Placed.{IsPosixZone};
ghost use Rattle.jiff.specs.Words.{read_whole};
ghost use Rattle.jiff.specs.ZoneView.{plain_zone};
ghost use Rattle.pay_day.specs.Day.{IsInstant, stamp_of};
ghost use Rattle.pay_fare_file.specs.Words.{fare_text};
ghost use Rattle.pay_session.specs.Words.{IsBroken, IsLastFill, ShowsNothing};
ghost use Rattle.pay_run.specs.Words.{after, before, whole_bytes, with_ledger_in, without_ledger};
ghost use Rattle.pay_kept.specs.Words.{IsAsKept};
ghost use Rattle.pay_jobs.specs.Faults.{told_of};
ghost use Rattle.pay_jobs.specs.Kept.{IsOtherThanKept};
ghost use Rattle.pay_jobs.specs.Run.{AreNotRead, AreRead, HasBegun, HasNotRun, HasRun, IsNotBegun, IsRefused};
ghost use Rattle.pay_jobs.specs.Texts.{Texts, texts};

use crate::begun::{Begun, FaresAndZone};
use crate::fault::Fault;
use crate::kept::compare_with;
use crate::ledger::take_with;
use jiff::tz::TimeZone;
use pay_book::Book;
use pay_close::Watch;
use pay_day::stamp;
use pay_editions::read_editions;
use pay_journal::{Keeper, Lasting, LineKeeper};
use pay_ledger::Ledger;
use pay_run::{Ran, replayed_desk, run_lines, run_lines_without_ledger};
use pay_session::{Done, KnownReader};
use pay_tables::Editions;
use pay_wire::KnownWriter;
use pay_zone::Zone;
use sqlite::Alter;
use std::alloc::{AllocError, Global};
use std::mem::forget;
use std::sync::Arc;

/// The first step of a session: reads the fare file, then the zone, and takes the whole lines of the journal, in this order. What stands
/// after the last newline of the journal is no line. The caller then opens the ledger.
pub fn begin(alloc: Global, fares: &str, zone: &str, past: &[u8]) -> Result<Begun, Fault>
    ensures begun { IfOk result (HasBegun (texts fares.now zone.now past.now)) }
    ensures fails { IfErr result (IsNotBegun (texts fares.now zone.now past.now)) }
{
    let editions = read_fares(alloc, fares)?;
    let zone = read_clock(alloc, zone)?;
    let begun = replayed_desk(alloc, editions, &zone, past)?;
    let (desk, replayed) = begun;
    Ok(Begun {
        zone,
        desk,
        replayed,
    })
}

impl Begun {
    /// What keeps the session's lines, over the writer that has its journal: they come after the whole lines of the journal, and what
    /// stands after these is cut off before the first of them. It settles each line at once, or does not.
    pub fn keeper<W: Lasting>(&self, writer: W, syncs: bool) -> LineKeeper<W>
        ensures writer { result.writer ≡ writer }
        ensures whole { (texts : Texts) → HasBegun texts self.now → result.whole ≡ Some (whole_bytes texts.past) }
        ensures syncs { result.syncs ≡ syncs }
    {
        LineKeeper::begin(writer, self.replayed.bytes, syncs)
    }

    /// That the accounts come to the same by what is kept beside the journal, which is to be with the zone of a text; or why not.
    pub fn compare(&self, alloc: Global, zone: &str, kept: &str) -> Result<(), Fault>
        ensures alike { OnOk result (IsAsKept kept.now zone.now self.now.desk.shard) }
        ensures other { IfErr result (IsOtherThanKept kept.now zone.now self.now.desk.shard) }
    {
        compare_with(alloc, self.desk.shard(), zone, kept)
    }

    /// The second step: answers the lines of a reader, beginning with what the journal gives back, and closes days into the ledger that was
    /// opened, if the watch lets it. The keeper keeps lines after the whole ones of the journal. A ledger that does not agree with what the journal gives back is
    /// not [taken](take_with), and nothing is read or written. What came of the session is [told](told).
    pub fn run<K: Keeper, S: Alter, C: Watch, R: KnownReader, W: KnownWriter>(
        self,
        alloc: Global,
        keeper: K,
        ledger: &mut Ledger<S>,
        watch: &mut C,
        reader: &mut R,
        writer: &mut W,
    ) -> Result<Ran<Book, K>, Fault>
        ensures ran { IfOk result (λ ran. HasRun (with_ledger_in S.Store K.Keeper R.remaining W.contents) self (before keeper ledger.old reader.old writer.old)
            (after ran.desk ledger.new reader.new writer.new) ran.ended) }
        ensures fails { IfErr result (HasNotRun S.Store self ledger.old ledger.new) }
        ensures settled { IfOk result (λ ran. ran.desk.stuck ≡ false → (it : K) × K.IsSettled it × (K.holds it ≡ ran.desk.holds)) }
        ensures untouched { OnErr result ((reader.new ≡ reader.old) × (writer.new ≡ writer.old)) }
        ensures ended { IfOk result (λ ran. IfOk ran.ended (λ done. done.quit ≡ false → IsLastFill R.MayAnswer (ShowsNothing R.MayAnswer) reader.old reader.new)) }
        ensures cause { IfOk result (λ ran. IfErr ran.ended (λ fault. IsBroken R.MayAnswer W.MayAnswer fault reader.old reader.new writer.new)) }
    {
        let Begun {
            zone,
            desk,
            replayed: _,
        } = self;
        take_with(alloc, ledger, desk.shard())?;
        watch.begins();
        Ok(run_lines(alloc, reader, writer, &zone, desk, keeper, ledger, watch))
    }

    /// The second step without a ledger: nothing is closed, and each close is answered by `NO 34 NotHere`.
    pub fn run_without_ledger<K: Keeper, R: KnownReader, W: KnownWriter>(
        self,
        keeper: K,
        reader: &mut R,
        writer: &mut W,
    ) -> Ran<Book, K>
        ensures ran { HasRun (without_ledger K.Keeper R.remaining W.contents) self (before keeper tt reader.old writer.old) (after result.desk tt reader.new writer.new) result.ended }
        ensures settled { result.desk.stuck ≡ false → (it : K) × K.IsSettled it × (K.holds it ≡ result.desk.holds) }
        ensures ended { IfOk result.ended (λ done. done.quit ≡ false → IsLastFill R.MayAnswer (ShowsNothing R.MayAnswer) reader.old reader.new) }
        ensures cause { IfErr result.ended (λ fault. IsBroken R.MayAnswer W.MayAnswer fault reader.old reader.new writer.new) }
    {
        let Begun {
            zone,
            desk,
            replayed: _,
        } = self;
        run_lines_without_ledger(reader, writer, &zone, desk, keeper)
    }
}

/// How a session ended by itself, or why the program fails: that something was not kept is told before the fault of a stream. The
/// program is to end then: the accounts' memory is not given back one by one, but with its own.
pub fn told<K: Keeper>(ran: Ran<Book, K>) -> Result<Done, Fault>
    ensures { result ≡ told_of ran.desk.stuck ran.ended }
{
    let Ran { ended, desk } = ran;
    let is_stuck = desk.is_stuck();
    forget(desk);
    if is_stuck {
        return Err(Fault::Journal);
    }
    match ended {
        Ok(done) => Ok(done),
        Err(fault) => Err(Fault::from(fault)),
    }
}

/// The first step of a service: reads the fare file, and then the zone. The caller then opens the ledger.
pub fn begin_service(alloc: Global, fares: &str, zone: &str) -> Result<FaresAndZone, Fault>
    ensures read { IfOk result (AreRead fares.now zone.now) }
    ensures fails { IfErr result (AreNotRead fares.now zone.now) }
{
    let editions = read_fares(alloc, fares)?;
    let zone = read_zone(zone)?;
    Ok(FaresAndZone { editions, zone })
}

/// The fare file that a text says.
pub(crate) fn read_fares(alloc: Global, text: &str) -> Result<Arc<Editions>, Fault>
    ensures ok { IfOk result (λ editions. fare_text text.now ≡ Ok (arc_value editions)) }
    ensures refused { IfErr result (λ fault. IsRefused fault text.now) }
{
    let editions = read_editions(alloc, text)?;
    let shared = Arc::new(alloc, editions).map_err(AllocError::from)?;
    Ok(shared)
}

/// The zone of a text, a POSIX rule.
pub fn read_zone(text: &str) -> Result<TimeZone<'static>, Fault>
    ensures ok { IfOk result (λ zone. IsPosixZone text.now (plain_zone zone)) }
    ensures bad { IfErr result (λ fault. fault ≡ Fault.BadZone) }
    ensures none { OnErr result (read_whole text.now ≡ None) }
{
    match TimeZone::posix(text) {
        Ok(zone) => Ok(zone),
        Err(_) => Err(Fault::BadZone),
    }
}

/// The same for many instants.
pub(crate) fn read_clock(alloc: Global, text: &str) -> Result<Zone<'static>, Fault>
    ensures ok { IfOk result (λ zone. IsPosixZone text.now (plain_zone zone)) }
    ensures bad { IfErr result (λ fault. fault ≡ Fault.BadZone) }
    ensures none { OnErr result (read_whole text.now ≡ None) }
{
    let zone = read_zone(text)?;
    Ok(Zone::new(alloc, zone))
}

/// Whether a service day is over in a zone at an instant, in seconds of the Unix clock: a later one has begun. At an instant that has no
/// service day none is.
pub fn is_over(zone: &TimeZone<'_>, day: u32, now: u64) -> bool
    ensures { (result ≡ true) ↔ (IsInstant now × (day < (stamp_of zone.now now).day)) }
{
    match stamp(zone, now) {
        Ok(moment) => day < moment.day(),
        Err(_) => false,
    }
}
