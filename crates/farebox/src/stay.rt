//! A service that stays, over journals and a ledger in files.
ghost use Rattle.std.specs.Prelude.{◌≡◌, ◌≤◌, length};
ghost use Rattle.pay_words.specs.declared.limits.TheConstants.{MOST_SHARDS};

use crate::serve::{compare_beside, keep_once_taken, report_in};
use pay_files::{
    CloseWatch, JournalFiles, KeptFares, LaneFiles, LastClose, Ledgers, StaffFiles, Start,
    fares_text, memory_or, noted_in, open_journals, print_warnings, ready_ledger, settle_journals,
};
use pay_jobs::{Alter, FaresAndZone, Fault, Keeper, Ledger};
use pay_log::{Level, Log};
use pay_serve_job::{Aside, Given, Plan, Staying, stay};
use pay_words::StayWords;
use std::fs::File;
use std::net::{Net, TcpListener, TcpStream};
use std::process::ExitCode;
use std::rt::{Clock, Files};
use std::sync::atomic::AtomicBool;
use std::sync::{Arc, Wait};
use std::thread::Threads;
use std::time::Instant;

/// Serves everybody at one port and staff at another, until staff ask for the service to stop, or a line cannot be kept.
pub fn stay_on<R, S: Alter + Drop>(rt: R, words: &StayWords<'_>) -> Result<ExitCode, Fault>
where
    R: Net<Listener = TcpListener, Stream = TcpStream>
        + Threads
        + Wait
        + Files<File = File>
        + Ledgers<InFile = Ledger<S>>
        + Clock
        + Log
        + AllocGlobal
        + Copy
        + Send
        + 'static,
    requires few { words.now.shards ≤ MOST_SHARDS }
{
    let began = Instant::now(&rt).ok();
    let fares = fares_text(&rt, words.fares)?;
    print_warnings(&rt, fares.as_str())?;
    let journals = open_journals(&rt, words.journal, words.shards)?;
    let aside = match LaneFiles::open(rt, words.journal, words.refused) {
        Ok(aside) => aside,
        Err(_) => return Ok(report_refused(&rt, words)),
    };
    let start = Start {
        began,
        lines: journals.lines(),
    };
    let closed = LastClose::new(rt.alloc())?;
    let staff_aside = match StaffFiles::beside(
        &aside,
        words.ledger,
        words.journal,
        start,
        &journals.loads,
        &closed,
    ) {
        Ok(aside) => aside,
        Err(error) => return Err(memory_or(&error, Fault::CannotListen)),
    };
    match stay_beside(
        rt,
        words,
        fares.as_str(),
        journals,
        closed,
        aside,
        staff_aside,
    ) {
        Ok(()) => {
            rt.say(Level::Information, "farebox: stopped");
            Ok(ExitCode::SUCCESS)
        }
        Err(Fault::JournalLineOf { journal, line, why }) => {
            report_in(&rt, words.journal, journal, line, why)
        }
        Err(fault) => Err(fault),
    }
}

/// Reports that the file of refused lines cannot be used.
fn report_refused<R: Log>(rt: &R, words: &StayWords<'_>) -> ExitCode {
    let path = words.refused.unwrap_or("");
    rt.say(
        Level::Error,
        format_args!("farebox: cannot keep refused lines in {path}"),
    );
    ExitCode::FAILURE
}

/// The plan that words ask for. No connection is its last, and no day is closed at its end.
fn plan_of(words: &StayWords<'_>) -> Plan
    ensures port { result.port ≡ words.now.port }
    ensures lanes { result.lanes ≡ words.now.lanes }
    ensures shards { result.shards ≡ words.now.shards }
{
    Plan {
        port: words.port,
        lanes: words.lanes,
        shards: words.shards,
        sessions: 0,
        close: 0,
    }
}

/// How a service stays by these words, until it is told to stop.
fn staying_of<'a>(words: &StayWords<'a>, stop: &'a Arc<AtomicBool>) -> Staying<'a>
    ensures staff { result.staff ≡ words.now.control }
    ensures ahead { result.ahead ≡ words.now.ahead }
    ensures greeting { result.greeting ≡ words.now.greeting }
{
    Staying {
        staff: words.control,
        ahead: words.ahead,
        greeting: words.greeting,
        stop,
    }
}

/// The same with the journals that are open, if the accounts come to the same by what is kept beside them. What was kept is on the disk
/// when it ends.
fn stay_beside<R, S: Alter + Drop, A, B>(
    rt: R,
    words: &StayWords<'_>,
    fares: &str,
    journals: JournalFiles<R>,
    closed: LastClose,
    aside: A,
    staff_aside: B,
) -> Result<(), Fault>
where
    R: Net<Listener = TcpListener, Stream = TcpStream>
        + Threads
        + Wait
        + Files<File = File>
        + Ledgers<InFile = Ledger<S>>
        + Clock
        + Log
        + AllocGlobal
        + Copy
        + Send
        + 'static,
    A: Aside + Send + 'static,
    B: Aside,
    requires keepers { length journals.keepers.items ≡ words.now.shards }
{
    let JournalFiles {
        texts,
        keepers,
        others: _held,
        failed,
        loads: _loads,
    } = journals;
    let (begun, kept) = compare_beside(
        &rt,
        fares,
        words.zone,
        words.journal,
        Some(words.ledger),
        texts.as_slice(),
    )?;
    let FaresAndZone { editions, zone } = begun;
    let given = Given {
        editions,
        zone,
        plan: plan_of(words),
        texts: texts.as_slice(),
        keepers,
    };
    stay_in_file(rt, words, given, &failed, &kept, closed, aside, staff_aside)?;
    settle_journals(&rt, words.journal, words.shards)
}

/// The same over the ledger in its file, with what is noted beside the journals.
fn stay_in_file<R, K, S: Alter + Drop, A, B>(
    rt: R,
    words: &StayWords<'_>,
    given: Given<'_, K>,
    failed: &Arc<AtomicBool>,
    kept: &KeptFares,
    closed: LastClose,
    aside: A,
    staff_aside: B,
) -> Result<(), Fault>
where
    R: Net<Listener = TcpListener, Stream = TcpStream>
        + Threads
        + Wait
        + Files<File = File>
        + Ledgers<InFile = Ledger<S>>
        + Clock
        + Log
        + AllocGlobal
        + Copy
        + Send
        + 'static,
    K: Keeper + Send + 'static,
    A: Aside + Send + 'static,
    B: Aside,
    requires keepers { length given.keepers.items ≡ given.plan.shards }
{
    let noted = noted_in(&rt, words.journal)?;
    noted.refuse_ledger(&rt, words.ledger)?;
    ready_ledger(&rt, words.ledger)?;
    let watch = CloseWatch::begin(rt, words.zone, words.early, Some(noted), Some(closed))?;
    let mut ledger = rt.ledger(words.ledger)?;
    let stayed = stay_watched(
        rt,
        words,
        given,
        failed,
        kept,
        &mut ledger,
        watch,
        aside,
        staff_aside,
    );
    rt.close(ledger);
    stayed
}

/// The same with the ledger, which has the posting that is noted.
fn stay_watched<R, K, S: Alter, A, B>(
    rt: R,
    words: &StayWords<'_>,
    given: Given<'_, K>,
    failed: &Arc<AtomicBool>,
    kept: &KeptFares,
    ledger: &mut Ledger<S>,
    mut watch: CloseWatch<R>,
    aside: A,
    staff_aside: B,
) -> Result<(), Fault>
where
    R: Net<Listener = TcpListener, Stream = TcpStream>
        + Threads
        + Wait
        + Files<File = File>
        + Clock
        + Log
        + AllocGlobal
        + Copy
        + Send
        + 'static,
    K: Keeper + Send + 'static,
    A: Aside + Send + 'static,
    B: Aside,
    requires keepers { length given.keepers.items ≡ given.plan.shards }
{
    watch.take(ledger)?;
    keep_once_taken(&rt, &given, ledger, kept)?;
    let staying = staying_of(words, failed);
    stay(
        rt,
        rt.alloc(),
        given,
        staying,
        ledger,
        &mut watch,
        aside,
        staff_aside,
    )
}
