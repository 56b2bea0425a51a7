//! What the lanes of a service share.
ghost use Rattle.std.specs.Prelude.{◌≡◌};

use crate::greeting::Greeting;
use crate::tally::Tally;
use std::alloc::{AllocError, Global};
use std::sync::Arc;
use std::sync::atomic::AtomicBool;

/// What the lanes of a service share.
#[derive(Drop)]
pub struct Shared {
    /// What tells all of them to end, once it is true.
    pub stop: Arc<AtomicBool>,
    /// What they count together.
    pub tally: Arc<Tally>,
    /// How many seconds a tap may be ahead of the machine's clock. Without it, any.
    pub ahead: Option<u32>,
    /// The line with which each connection has to begin, if it has to.
    pub greeting: Option<Greeting>,
}

/// The same greeting once more.
pub fn same(greeting: &Option<Greeting>) -> Option<Greeting>
    ensures { result ≡ greeting.now }
{
    match greeting {
        Some(greeting) => Some(greeting.again()),
        None => None,
    }
}

impl Shared {
    /// Of lanes that were not served yet. A connection has to begin with the line that is the greeting, if one is given: it has at most 128
    /// bytes, and is no word of staff. Of any other there is nothing, as where memory runs out.
    pub fn new(
        alloc: Global,
        stop: &Arc<AtomicBool>,
        ahead: Option<u32>,
        greeting: Option<&str>,
    ) -> Result<Shared, AllocError> {
        let greeting = match greeting {
            Some(text) => Some(Greeting::of(text.as_bytes()).ok_or(AllocError)?),
            None => None,
        };
        Ok(Shared {
            stop: Arc::clone(stop)?,
            tally: Arc::new(alloc, Tally::new(alloc)?).map_err(AllocError::from)?,
            ahead,
            greeting,
        })
    }

    /// The same for one more lane.
    pub fn again(&self) -> Result<Shared, AllocError> {
        Ok(Shared {
            stop: Arc::clone(&self.stop)?,
            tally: Arc::clone(&self.tally)?,
            ahead: self.ahead,
            greeting: same(&self.greeting),
        })
    }
}
