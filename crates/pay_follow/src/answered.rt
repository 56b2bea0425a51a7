//! The line that a replica read last.

use std::alloc::Global;

/// The line that was read last, and the reply to it.
#[derive(Drop)]
pub struct Answered {
    /// The line, without a newline.
    pub line: Vec<u8>,
    /// The reply, as it is published.
    pub reply: Vec<u8>,
    // Into which the next line is read.
    pub(crate) next: Vec<u8>,
}

impl Answered {
    /// Of no line yet.
    pub fn new(alloc: Global) -> Answered {
        Answered {
            line: Vec::new(alloc),
            reply: Vec::new(alloc),
            next: Vec::new(alloc),
        }
    }
}
