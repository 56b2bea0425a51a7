//! What the shards of a service have on hand.

use crate::stats::put;
use std::alloc::{AllocError, Global};
use std::fmt::Write;
use std::sync::Arc;
use std::sync::atomic::{AtomicU64, Ordering};

/// What a shard of a service has on hand, as its worker last told.
#[derive(Drop)]
pub struct Load {
    accounts: AtomicU64,
    waiting: AtomicU64,
}

impl Load {
    /// Before its worker has told anything.
    fn new() -> Load {
        Load {
            accounts: AtomicU64::new(0),
            waiting: AtomicU64::new(0),
        }
    }

    /// Tells how many accounts have accepted something, and how many entries wait.
    pub fn tell(&self, accounts: usize, waiting: usize) {
        self.accounts.store(accounts as u64, Ordering::SeqCst);
        self.waiting.store(waiting as u64, Ordering::SeqCst);
    }
}

/// What all shards of a service have on hand, in the order of their numbers: its workers tell it, and what answers staff asks for it.
#[derive(Drop)]
pub struct Loads {
    shards: Vec<Arc<Load>>,
}

impl Loads {
    /// Of no shard.
    pub(crate) fn new(alloc: Global) -> Loads {
        Loads {
            shards: Vec::new(alloc),
        }
    }

    /// That of one more shard, which its worker tells.
    pub(crate) fn add(&mut self) -> Result<Arc<Load>, AllocError> {
        let load = Arc::new(*self.shards.allocator(), Load::new()).map_err(AllocError::from)?;
        self.shards
            .push(Arc::clone(&load)?)
            .map_err(AllocError::from)?;
        Ok(load)
    }

    /// The same for who asks for it.
    pub fn again(&self) -> Result<Loads, AllocError> {
        let mut again = Loads::new(*self.shards.allocator());
        for load in &self.shards {
            again
                .shards
                .push(Arc::clone(load)?)
                .map_err(AllocError::from)?;
        }
        Ok(again)
    }

    /// Adds the accounts of all shards to a line, and for each shard how many entries waited when its worker last looked.
    pub(crate) fn put(&self, line: &mut String) -> Result<(), AllocError> {
        put(line, "accounts", Some(self.accounts()))?;
        for number in 0..self.shards.len() {
            let waiting = self.shards[number].waiting.load(Ordering::SeqCst);
            write!(line, " waiting_{number}={waiting}")?;
        }
        Ok(())
    }

    /// How many accounts of all shards have accepted something.
    fn accounts(&self) -> u64 {
        let mut accounts: u64 = 0;
        for load in &self.shards {
            accounts = accounts.saturating_add(load.accounts.load(Ordering::SeqCst));
        }
        accounts
    }
}
