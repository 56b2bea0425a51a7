//! A keeper that reports where it fails.

use crate::loads::Load;
use pay_jobs::{Command, Keeper, NotKept};
use pay_log::{Level, Log};
use std::sync::Arc;
use std::sync::atomic::{AtomicBool, Ordering};

/// Keeps what a keeper does. Where that fails, standard error has the path of its file at once: what its shard is asked is not accepted
/// any more. A service that stays ends then; any other goes on.
#[derive(Drop)]
pub struct ReportingKeeper<K, R> {
    /// What keeps lines.
    pub keeper: K,
    /// Where standard error is.
    pub rt: R,
    /// The path of the file.
    pub path: String,
    /// What is told that it failed.
    pub failed: Arc<AtomicBool>,
    /// What is told of its shard's load.
    pub load: Arc<Load>,
}

impl<K: Keeper, R: Log + Copy> ReportingKeeper<K, R> {
    /// Reports that a line is not kept, or not for sure.
    fn report(&self) {
        let path = self.path.as_str();
        let line = format_args!("farebox: cannot keep lines in {path}");
        self.rt.say(Level::Error, line);
        self.failed.store(true, Ordering::SeqCst);
    }
}

impl<K: Keeper, R: Log + Copy> Keeper for ReportingKeeper<K, R> {
    ghost holds = { λ k. K.holds k.keeper };

    ghost HasFailed = { λ k. K.HasFailed k.keeper };

    ghost IsSettled = { λ k. K.IsSettled k.keeper };

    fn keep(&mut self, command: Command) -> Result<(), NotKept> {
        match self.keeper.keep(command) {
            Ok(()) => Ok(()),
            Err(fault) => {
                self.report();
                Err(fault)
            }
        }
    }

    fn settle(&mut self) -> Result<(), NotKept> {
        match self.keeper.settle() {
            Ok(()) => Ok(()),
            Err(fault) => {
                self.report();
                Err(fault)
            }
        }
    }

    fn tell(&self, accounts: usize, waiting: usize) {
        self.load.tell(accounts, waiting);
    }
}
