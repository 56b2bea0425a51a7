//! The last close of a service that stays.

use std::alloc::{AllocError, Global};
use std::cell::Cell;
use std::rc::Rc;
use std::time::Instant;

/// A close of a service day.
#[derive(Clone, Copy)]
pub struct Close {
    /// The day, counted from 1970-01-01.
    pub day: u32,
    /// How many postings it made.
    pub postings: u64,
    /// When that was, if the clock could tell.
    pub at: Option<Instant>,
}

/// The last close of a service, if there was one: what watches closes tells it, and what answers staff asks for it.
#[derive(Drop)]
pub struct LastClose {
    close: Rc<Cell<Option<Close>>>,
}

impl LastClose {
    /// Before the first one.
    pub fn new(alloc: Global) -> Result<LastClose, AllocError> {
        let close = Rc::new(alloc, Cell::new(None)).map_err(AllocError::from)?;
        Ok(LastClose { close })
    }

    /// The same for who tells it or asks for it.
    pub fn again(&self) -> Result<LastClose, AllocError> {
        let close = Rc::clone(&self.close)?;
        Ok(LastClose { close })
    }

    /// Tells of a close.
    pub(crate) fn tell(&self, close: Close) {
        self.close.set(Some(close));
    }

    /// The last one that was told.
    pub(crate) fn get(&self) -> Option<Close> {
        self.close.get()
    }
}
