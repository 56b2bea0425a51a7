//! A limit that threads share.

use crate::level::Level;
use crate::limit::Limit;
use crate::log::Log;
use std::alloc::{AllocError, Global};
use std::fmt::Display;
use std::sync::{Arc, Mutex, Wait};
use std::time::Clock;

/// Says lines of one kind, at most one a second whoever says them.
#[derive(Drop)]
pub struct Limiter {
    limit: Arc<Mutex<Limit>>,
}

impl Limiter {
    /// For a kind of which none was said.
    pub fn new(alloc: Global) -> Result<Limiter, AllocError> {
        let limit = Arc::new(alloc, Mutex::new(Limit::new())).map_err(AllocError::from)?;
        Ok(Limiter { limit })
    }

    /// The same for somebody else.
    pub fn again(&self) -> Result<Limiter, AllocError> {
        let limit = Arc::clone(&self.limit)?;
        Ok(Limiter { limit })
    }

    /// Says a line, with how many were left out before it; or leaves it out.
    pub fn say<R: Log + Clock + Wait, D: Display + Drop>(&self, rt: &R, level: Level, line: D) {
        match self.ask(rt) {
            Some(0) => rt.say(level, line),
            Some(more) => rt.say(level, format_args!("{line} ({more} more in between)")),
            None => {}
        }
    }

    /// Asks whether a line may be said now, and how many were left out before it. A clock that cannot be read stands still.
    fn ask<R: Clock + Wait>(&self, rt: &R) -> Option<u64> {
        let now = match rt.monotonic() {
            Ok(now) => now.as_millis(),
            Err(_) => 0,
        };
        self.limit.lock(rt).ask(now)
    }
}
