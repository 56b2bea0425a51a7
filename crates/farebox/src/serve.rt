//! The sessions of all lanes, and the close of a day, to standard output.
ghost use Rattle.std.specs.Prelude.{◌≡◌, ◌≤◌, length, IfOk};
ghost use Rattle.pay_jobs.specs.Words.{IsDay};
ghost use Rattle.pay_words.specs.declared.limits.TheConstants.{MOST_SHARDS};

use pay_files::{
    CloseWatch, JournalFiles, KeptFares, Ledgers, NotedPosting, fares_text, kept_in, new_ledger,
    noted_in, open_journals, path_in, print_warnings, ready_ledger, report_line, settle_journals,
};
use pay_jobs::{
    Alter, FaresAndZone, Fault, Keeper, Ledger, NoKeeper, NoWatch, Watch, begin_service,
    compare_texts,
};
use pay_log::Log;
use pay_serve_job::{Given, Plan, serve, serve_without_ledger, take_given};
use pay_wire::Refusal;
use pay_words::ServeWords;
use std::alloc::{AllocError, Global};
use std::fs::File;
use std::io;
use std::net::{Net, TcpListener, TcpStream};
use std::process::ExitCode;
use std::rt::{Clock, Files};
use std::sync::Wait;
use std::thread::Threads;

/// The sessions of all lanes, and then the lines of the close, to standard output. The status says whether the day was closed.
pub fn serve_sessions<R, S: Alter + Drop>(rt: R, words: &ServeWords<'_>) -> Result<ExitCode, Fault>
where
    R: Net<Listener = TcpListener, Stream = TcpStream>
        + Threads
        + Wait
        + Files<File = File>
        + Ledgers<InFile = Ledger<S>>
        + Clock
        + Print
        + Log
        + AllocGlobal
        + Copy
        + Send
        + 'static,
    requires day { IsDay words.now.close }
    requires few { words.now.shards ≤ MOST_SHARDS }
{
    let fares = fares_text(&rt, words.fares)?;
    if words.journal.is_some() || words.ledger.is_some() {
        print_warnings(&rt, fares.as_str())?;
    }
    match words.journal {
        None => serve_unkept(rt, words, fares.as_str()),
        Some(folder) => {
            let journals = open_journals(&rt, folder, words.shards)?;
            serve_kept(rt, words, fares.as_str(), folder, journals)
        }
    }
}

/// The plan that words ask for.
fn plan_of(words: &ServeWords<'_>) -> Plan
    ensures port { result.port ≡ words.now.port }
    ensures lanes { result.lanes ≡ words.now.lanes }
    ensures shards { result.shards ≡ words.now.shards }
    ensures sessions { result.sessions ≡ words.now.sessions }
    ensures close { result.close ≡ words.now.close }
{
    Plan {
        port: words.port,
        lanes: words.lanes,
        shards: words.shards,
        sessions: words.sessions,
        close: words.close,
    }
}

/// A service without journals, over a ledger in a file, or in memory.
fn serve_unkept<R, S: Alter + Drop>(
    rt: R,
    words: &ServeWords<'_>,
    fares: &str,
) -> Result<ExitCode, Fault>
where
    R: Net<Listener = TcpListener, Stream = TcpStream>
        + Threads
        + Wait
        + Files<File = File>
        + Ledgers<InFile = Ledger<S>>
        + Clock
        + Print
        + Log
        + AllocGlobal
        + Copy
        + Send
        + 'static,
    requires day { IsDay words.now.close }
{
    let keepers = no_keepers(rt.alloc(), words.shards)?;
    let FaresAndZone { editions, zone } = begin_service(rt.alloc(), fares, words.zone)?;
    let given = Given {
        editions,
        zone,
        plan: plan_of(words),
        texts: &[],
        keepers,
    };
    match words.ledger {
        None => {
            let mut ledger = new_ledger(rt.alloc())?;
            status_of(serve_over(rt, given, &mut ledger, &mut NoWatch))
        }
        Some(path) => status_of(serve_in_file(rt, words, path, given, None, None)),
    }
}

/// A service with journals. The line of one that is not accepted is reported by the path of its file.
fn serve_kept<R, S: Alter + Drop>(
    rt: R,
    words: &ServeWords<'_>,
    fares: &str,
    folder: &str,
    journals: JournalFiles<R>,
) -> Result<ExitCode, Fault>
where
    R: Net<Listener = TcpListener, Stream = TcpStream>
        + Threads
        + Wait
        + Files<File = File>
        + Ledgers<InFile = Ledger<S>>
        + Clock
        + Print
        + Log
        + AllocGlobal
        + Copy
        + Send
        + 'static,
    requires day { IsDay words.now.close }
    requires keepers { length journals.keepers.items ≡ words.now.shards }
{
    match serve_beside(rt, words, fares, folder, journals) {
        Err(Fault::JournalLineOf { journal, line, why }) => {
            report_in(&rt, folder, journal, line, why)
        }
        closed => status_of(closed),
    }
}

/// The fare file and the zone of a service with journals in a folder, and what is kept beside these, if the accounts come to the same by
/// both and a ledger may be at its path.
pub(crate) fn compare_beside<R: Files<File = File> + AllocGlobal>(
    rt: &R,
    fares: &str,
    zone: &str,
    folder: &str,
    ledger: Option<&str>,
    texts: &[Vec<u8>],
) -> Result<(FaresAndZone, KeptFares), Fault> {
    let begun = begin_service(rt.alloc(), fares, zone)?;
    let kept = kept_in(rt, folder, zone, ledger.is_some(), fares)?;
    if let Some(other) = kept.other() {
        compare_texts(rt.alloc(), &begun.editions, &begun.zone, zone, texts, other)?;
    }
    if let Some(ledger) = ledger {
        kept.refuse_ledger(rt, ledger)?;
    }
    Ok((begun, kept))
}

/// A service with journals, over a ledger in a file, if the accounts come to the same by what is kept beside the journals. Whether the
/// day was closed. Without a ledger it is not, as for a session.
fn serve_beside<R, S: Alter + Drop>(
    rt: R,
    words: &ServeWords<'_>,
    fares: &str,
    folder: &str,
    journals: JournalFiles<R>,
) -> Result<bool, Fault>
where
    R: Net<Listener = TcpListener, Stream = TcpStream>
        + Threads
        + Wait
        + Files<File = File>
        + Ledgers<InFile = Ledger<S>>
        + Clock
        + Print
        + Log
        + AllocGlobal
        + Copy
        + Send
        + 'static,
    requires day { IsDay words.now.close }
    requires keepers { length journals.keepers.items ≡ words.now.shards }
{
    let JournalFiles {
        texts,
        keepers,
        others: _held,
        failed: _failed,
        loads: _loads,
    } = journals;
    let (begun, kept) = compare_beside(
        &rt,
        fares,
        words.zone,
        folder,
        words.ledger,
        texts.as_slice(),
    )?;
    let FaresAndZone { editions, zone } = begun;
    let given = Given {
        editions,
        zone,
        plan: plan_of(words),
        texts: texts.as_slice(),
        keepers,
    };
    match words.ledger {
        None => {
            kept.keep(&rt)?;
            serve_alone(rt, folder, given)
        }
        Some(path) => {
            let noted = noted_in(&rt, folder)?;
            noted.refuse_ledger(&rt, path)?;
            serve_in_file(rt, words, path, given, Some(noted), Some(&kept))
        }
    }
}

/// A service over the ledger in the file at a path, with what is noted and kept beside its journals, if it has any. Whether the day was
/// closed, and its last posting noted.
fn serve_in_file<R, K, S: Alter + Drop>(
    rt: R,
    words: &ServeWords<'_>,
    path: &str,
    given: Given<'_, K>,
    noted: Option<NotedPosting>,
    kept: Option<&KeptFares>,
) -> Result<bool, Fault>
where
    R: Net<Listener = TcpListener, Stream = TcpStream>
        + Threads
        + Wait
        + Files<File = File>
        + Ledgers<InFile = Ledger<S>>
        + Clock
        + Print
        + Log
        + AllocGlobal
        + Copy
        + Send
        + 'static,
    K: Keeper + Send + 'static,
    requires day { IsDay given.plan.close }
    requires keepers { length given.keepers.items ≡ given.plan.shards }
{
    ready_ledger(&rt, path)?;
    let watch = CloseWatch::begin(rt, words.zone, words.early, noted, None)?;
    let mut ledger = rt.ledger(path)?;
    let closed = serve_watched(rt, given, &mut ledger, watch, kept);
    rt.close(ledger);
    closed
}

/// The same with the ledger, which has the posting that is noted. What is to be kept beside the journals is kept once the ledger agrees
/// with them.
fn serve_watched<R, K, S: Alter>(
    rt: R,
    given: Given<'_, K>,
    ledger: &mut Ledger<S>,
    mut watch: CloseWatch<R>,
    kept: Option<&KeptFares>,
) -> Result<bool, Fault>
where
    R: Net<Listener = TcpListener, Stream = TcpStream>
        + Threads
        + Wait
        + Files<File = File>
        + Clock
        + Print
        + Log
        + AllocGlobal
        + Copy
        + Send
        + 'static,
    K: Keeper + Send + 'static,
    requires day { IsDay given.plan.close }
    requires keepers { length given.keepers.items ≡ given.plan.shards }
{
    watch.take(ledger)?;
    if let Some(kept) = kept {
        keep_once_taken(&rt, &given, ledger, kept)?;
    }
    let closed = serve_over(rt, given, ledger, &mut watch)?;
    Ok(closed && !watch.has_failed)
}

/// Keeps beside the journals of a service what is not kept there yet, once a ledger agrees with them.
pub(crate) fn keep_once_taken<R: Files<File = File> + Log + AllocGlobal, K, S: Alter>(
    rt: &R,
    given: &Given<'_, K>,
    ledger: &mut Ledger<S>,
    kept: &KeptFares,
) -> Result<(), Fault> {
    if kept.is_there() {
        return Ok(());
    }
    let Given {
        editions,
        zone,
        texts,
        ..
    } = given;
    take_given(rt.alloc(), editions, zone, texts, ledger)?;
    kept.keep(rt)
}

/// A service without a ledger. Whether the day was closed, which it is not. What was kept is brought to the disk, as before a close.
fn serve_alone<R, K>(rt: R, folder: &str, given: Given<'_, K>) -> Result<bool, Fault>
where
    R: Net<Listener = TcpListener, Stream = TcpStream>
        + Threads
        + Wait
        + Files<File = File>
        + Clock
        + Print
        + Log
        + AllocGlobal
        + Copy
        + Send
        + 'static,
    K: Keeper + Send + 'static,
    requires day { IsDay given.plan.close }
    requires keepers { length given.keepers.items ≡ given.plan.shards }
{
    let shards = given.plan.shards;
    let closed = serve_without_ledger(rt, rt.alloc(), given, &mut io::writer(&rt))?;
    settle_journals(&rt, folder, shards)?;
    Ok(closed)
}

/// A service over a ledger. Whether the day was closed.
fn serve_over<R, K, S: Alter, C: Watch>(
    rt: R,
    given: Given<'_, K>,
    ledger: &mut Ledger<S>,
    watch: &mut C,
) -> Result<bool, Fault>
where
    R: Net<Listener = TcpListener, Stream = TcpStream>
        + Threads
        + Wait
        + Files<File = File>
        + Clock
        + Print
        + Log
        + AllocGlobal
        + Copy
        + Send
        + 'static,
    K: Keeper + Send + 'static,
    requires day { IsDay given.plan.close }
    requires keepers { length given.keepers.items ≡ given.plan.shards }
{
    serve(rt, rt.alloc(), given, ledger, watch, &mut io::writer(&rt))
}

/// Reports the line of a journal in a folder that is not accepted, by the path of its file.
pub(crate) fn report_in<R: Log + AllocGlobal>(
    rt: &R,
    folder: &str,
    journal: u64,
    line: u64,
    why: Refusal,
) -> Result<ExitCode, Fault> {
    let path = path_in(rt.alloc(), folder, journal)?;
    Ok(report_line(rt, path.as_str(), line, why))
}

/// The status of a service, by whether its day was closed.
fn status_of(closed: Result<bool, Fault>) -> Result<ExitCode, Fault> {
    match closed {
        Ok(true) => Ok(ExitCode::SUCCESS),
        Ok(false) => Ok(ExitCode::FAILURE),
        Err(fault) => Err(fault),
    }
}

/// A keeper that keeps nothing for each shard.
fn no_keepers(alloc: Global, shards: u8) -> Result<Vec<NoKeeper>, AllocError>
    ensures { IfOk result (λ keepers. length keepers.items ≡ shards) }
{
    let mut keepers = Vec::new(alloc);
    for _ in 0..shards {
        keepers.push(NoKeeper).map_err(AllocError::from)?;
    }
    Ok(keepers)
}
