//! The jobs `follow` and `log`.

use pay_files::{Ledgers, fares_text, is_new_ledger, ready_ledger};
use pay_jobs::{Alter, Fault, Ledger};
use pay_log::{Level, Log};
use pay_replica::{LogFault, LogPlan, Shows, Stream, check_log, follow_partition, make_log};
use pay_words::{FollowWords, LogAction, LogWords};
use std::fs::File;
use std::net::{Net, TcpStream};
use std::process::ExitCode;
use std::random::RandomSource;
use std::rt::{Clock, Files};
use std::sync::Wait;

/// A replica, which answers the lines of a partition of a replicated log from the first on, over a ledger that is not there yet, until it has
/// to stop. Why, is said on standard error.
pub fn follow_log<R, S: Alter + Drop>(rt: R, words: &FollowWords<'_>) -> Result<ExitCode, Fault>
where
    R: Net<Stream = TcpStream>
        + Wait
        + Files<File = File>
        + Ledgers<InFile = Ledger<S>>
        + Clock
        + RandomSource
        + Log
        + AllocGlobal
        + Copy,
{
    let fares = fares_text(&rt, words.fares)?;
    if !is_new_ledger(&rt, words.ledger) {
        rt.say(
            Level::Error,
            format_args!("farebox: the ledger of a replica is to be a new one"),
        );
        return Ok(ExitCode::FAILURE);
    }
    ready_ledger(&rt, words.ledger)?;
    let mut ledger = rt.ledger(words.ledger)?;
    let plan = LogPlan {
        port: words.port,
        of: words.of,
        fares: fares.as_str(),
        zone: words.zone,
    };
    let stopped = follow_partition(rt, rt.alloc(), &plan, words.partition, &mut ledger);
    rt.close(ledger);
    rt.say(Level::Error, format_args!("farebox: {}", stopped?));
    Ok(ExitCode::FAILURE)
}

/// Makes the streams of a replicated log, or says how they are.
pub fn keep_log<R>(rt: R, words: &LogWords<'_>) -> Result<ExitCode, Fault>
where
    R: Net<Stream = TcpStream>
        + Files<File = File>
        + RandomSource
        + Print
        + Log
        + AllocGlobal
        + Copy,
{
    let fares = fares_text(&rt, words.fares)?;
    let plan = LogPlan {
        port: words.port,
        of: words.of,
        fares: fares.as_str(),
        zone: words.zone,
    };
    let mut prints = Prints { rt };
    let kept = match words.action {
        LogAction::Make { replicas } => make_log(&rt, rt.alloc(), &plan, replicas, &mut prints),
        LogAction::Check => check_log(&rt, rt.alloc(), &plan, &mut prints),
    };
    Ok(told(&rt, kept))
}

/// How the program ends then.
fn told<R: Log>(rt: &R, kept: Result<(), LogFault>) -> ExitCode {
    match kept {
        Ok(()) => ExitCode::SUCCESS,
        Err(fault) => {
            rt.say(Level::Error, format_args!("farebox: {fault}"));
            ExitCode::FAILURE
        }
    }
}

/// Prints how streams are.
#[derive(Drop)]
struct Prints<R: Copy> {
    rt: R,
}

impl<R: Print + Copy> Shows for Prints<R> {
    fn show(&mut self, partition: u8, stream: &Stream) {
        let leader = match &stream.leader {
            Some(leader) => leader.as_str(),
            None => "none",
        };
        let _ = self.rt.print(format_args!(
            "partition {partition}: {} lines, replicas {}, leader {leader}\n",
            stream.last, stream.replicas,
        ));
    }
}
