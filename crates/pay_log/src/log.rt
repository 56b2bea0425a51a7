//! Where lines are said.

use crate::level::{Level, Prefix};
use std::env::FillError;
use std::fmt::Display;
use std::io::Eprint;
use std::rt::Env;

/// What has a log: standard error. A service manager tells by the environment whether that is the system's journal.
pub trait Log: Eprint + Env {
    /// Says a line, in one piece with its level. Where it cannot be written, nothing else has failed.
    fn say<D: Display + Drop>(&self, level: Level, line: D);
}

impl<R: Eprint + Env> Log for R {
    fn say<D: Display + Drop>(&self, level: Level, line: D) {
        let is_journal = is_journal(self);
        let prefix = Prefix { level, is_journal };
        let _ = eprintln!(self; "{prefix}{line}");
    }
}

/// Whether standard error is the system's journal.
fn is_journal<R: Env>(rt: &R) -> bool {
    let mut start = [0];
    !matches!(
        rt.var("JOURNAL_STREAM", &mut start),
        Err(FillError::NotPresent)
    )
}
