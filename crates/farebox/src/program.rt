//! The program: its words, and the job that they ask for.
ghost use Rattle.farebox.specs.NoJob.{IsTextOrFault};

use crate::explain::explain_account;
use crate::follow::{follow_log, keep_log};
use crate::page::show_pages;
use crate::serve::serve_sessions;
use crate::statement::state_account;
use crate::stay::stay_on;
use pay_files::{
    Ledgers, audit_files, check_fares, memory_or, rebuild_lines, replay_journals, run_session,
};
use pay_jobs::{Alter, Fault, Ledger};
use pay_log::Log;
use pay_words::{Job, WordsFault, read_words};
use std::alloc::{AllocError, Global};
use std::fs::File;
use std::net::{Net, TcpListener, TcpStream};
use std::process::ExitCode;
use std::random::RandomSource;
use std::rt::{Clock, Env, Files};
use std::sync::Wait;
use std::thread::Threads;
use std::{env, fs};

/// The text that is to be printed for words that give no job, or the fault that they are.
fn text_or_fault(words: WordsFault) -> Result<String, Fault>
    ensures { IsTextOrFault words result }
{
    match words {
        WordsFault::Help(text) | WordsFault::Version(text) => Ok(text),
        WordsFault::Usage => Err(Fault::Usage),
        WordsFault::Memory => Err(Fault::from(AllocError)),
    }
}

/// Does what the words of the process ask for. The status that the program then ends with.
pub fn execute<R, S: Alter + Drop>(rt: R) -> Result<ExitCode, Fault>
where
    R: Net<Listener = TcpListener, Stream = TcpStream>
        + Threads
        + Wait
        + Files<File = File>
        + Ledgers<InFile = Ledger<S>>
        + Clock
        + RandomSource
        + Input
        + Print
        + Log
        + AllocGlobal
        + Copy
        + Send
        + 'static,
{
    let _held = [held(&rt), held(&rt), held(&rt)];
    let texts = given_texts(&rt)?;
    do_texts(rt, texts.as_slice())
}

/// A folder, where it can be opened. The system gives what is opened the lowest free number. So where a standard stream is closed, the
/// folder takes its place, and no journal or ledger does, into which replies would be written. It can be neither read nor written.
fn held<R: Files<File = File>>(rt: &R) -> Option<File> {
    fs::open(rt, "/").ok()
}

/// The words of the process.
fn given_texts<R: Env + AllocGlobal>(rt: &R) -> Result<Vec<String>, Fault> {
    match env::args(rt) {
        Ok(given) => Ok(given.collect(rt.alloc())?),
        Err(error) => Err(memory_or(&error, Fault::Usage)),
    }
}

/// Does what these texts ask for as words.
fn do_texts<R, S: Alter + Drop>(rt: R, texts: &[String]) -> Result<ExitCode, Fault>
where
    R: Net<Listener = TcpListener, Stream = TcpStream>
        + Threads
        + Wait
        + Files<File = File>
        + Ledgers<InFile = Ledger<S>>
        + Clock
        + RandomSource
        + Input
        + Print
        + Log
        + AllocGlobal
        + Copy
        + Send
        + 'static,
{
    let words = views_of(rt.alloc(), texts)?;
    do_words(rt, words.as_slice())
}

/// The texts as slices.
fn views_of(alloc: Global, texts: &[String]) -> Result<Vec<&str>, AllocError> {
    let mut words = Vec::new(alloc);
    for text in texts {
        words.push(text.as_str()).map_err(AllocError::from)?;
    }
    Ok(words)
}

/// Does the job that these words ask for.
fn do_words<R, S: Alter + Drop>(rt: R, words: &[&str]) -> Result<ExitCode, Fault>
where
    R: Net<Listener = TcpListener, Stream = TcpStream>
        + Threads
        + Wait
        + Files<File = File>
        + Ledgers<InFile = Ledger<S>>
        + Clock
        + RandomSource
        + Input
        + Print
        + Log
        + AllocGlobal
        + Copy
        + Send
        + 'static,
{
    match read_words(rt.alloc(), words) {
        Ok(Job::Run(words)) => run_session(&rt, &words),
        Ok(Job::Check(words)) => check_fares(&rt, &words),
        Ok(Job::Statement(words)) => state_account(&rt, &words),
        Ok(Job::Explain(words)) => explain_account(&rt, &words),
        Ok(Job::Page(words)) => show_pages(rt, &words),
        Ok(Job::Replay(words)) => replay_journals(&rt, &words),
        Ok(Job::Serve(words)) => serve_sessions(rt, &words),
        Ok(Job::Stay(words)) => stay_on(rt, &words),
        Ok(Job::Audit(words)) => audit_files(&rt, &words),
        Ok(Job::Rebuild(words)) => rebuild_lines(&rt, &words),
        Ok(Job::Follow(words)) => follow_log(rt, &words),
        Ok(Job::Log(words)) => keep_log(rt, &words),
        Err(none) => print_text(&rt, none),
    }
}

/// Prints the text that words ask for in place of a job.
fn print_text<R: Print>(rt: &R, words: WordsFault) -> Result<ExitCode, Fault> {
    let text = text_or_fault(words)?;
    match rt.print(text.as_str()) {
        Ok(()) => Ok(ExitCode::SUCCESS),
        Err(_) => Err(Fault::Output),
    }
}
