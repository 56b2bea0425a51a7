//! The job `check`.
ghost use Rattle.std.specs.Prelude.{IfSome};
ghost use Rattle.pay_jobs.specs.Words.{IsDay};

use crate::input::{fares_text, old_fares_text, print_warnings};
use pay_check::{CheckFault, check_against, check_text};
use pay_editions::fault_place;
use pay_jobs::Fault;
use pay_log::{Level, Log};
use pay_words::CheckWords;
use std::io;
use std::process::ExitCode;
use std::rt::Files;

/// What the fare file at a path has, or that it prices days as an old one does, to standard output; and its warnings to
/// standard error, where they are asked for. One of these is status 1.
pub fn check_fares<R: Files + Print + Log + AllocGlobal>(
    rt: &R,
    words: &CheckWords<'_>,
) -> Result<ExitCode, Fault>
    requires { IfSome words.now.after IsDay }
{
    let fares = fares_text(rt, words.fares)?;
    match check(rt, words, fares.as_str())? {
        Err(fault) => report(rt, words, fares.as_str(), fault),
        Ok(()) if words.lints => warn(rt, fares.as_str()),
        Ok(()) => Ok(ExitCode::SUCCESS),
    }
}

/// The same without its warnings, and how it ended.
fn check<R: Files + Print + AllocGlobal>(
    rt: &R,
    words: &CheckWords<'_>,
    fares: &str,
) -> Result<Result<(), CheckFault>, Fault>
    requires { IfSome words.now.after IsDay }
{
    let mut writer = io::writer(rt);
    match words.against {
        None => Ok(check_text(rt.alloc(), fares, &mut writer)),
        Some(path) => {
            let old = old_fares_text(rt, path)?;
            let (alloc, after) = (rt.alloc(), words.after);
            Ok(check_against(alloc, fares, old.as_str(), after, &mut writer))
        }
    }
}

/// Reports why the job failed; and where the fare file is at fault, or its warnings where it differs, if that is asked for.
fn report<R: Log + AllocGlobal>(
    rt: &R,
    words: &CheckWords<'_>,
    fares: &str,
    fault: CheckFault,
) -> Result<ExitCode, Fault> {
    let place = if words.lints {
        fault_place(rt.alloc(), fares)?
    } else {
        None
    };
    match place {
        Some(place) => rt.say(Level::Error, format_args!("farebox: {fault} {place}")),
        None => rt.say(Level::Error, format_args!("farebox: {fault}")),
    }
    match fault {
        CheckFault::OtherFares { .. } if words.lints => warn(rt, fares),
        _ => Ok(ExitCode::FAILURE),
    }
}

/// Prints the warnings of a fare file. The status that the program then ends with.
fn warn<R: Log + AllocGlobal>(rt: &R, fares: &str) -> Result<ExitCode, Fault> {
    match print_warnings(rt, fares)? {
        0 => Ok(ExitCode::SUCCESS),
        _ => Ok(ExitCode::FAILURE),
    }
}
