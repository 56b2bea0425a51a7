//! A writer that is flushed.

use std::alloc::Global;
use std::io;
use std::io::{ErrorKind, Write};

/// Takes all bytes, and fails at the flush after so many. It counts its flushes, and keeps how many bytes it held when it was last
/// flushed.
#[derive(Drop)]
pub struct Flushed {
    pub most_flushes: usize,
    pub flushes: usize,
    pub flushed: usize,
    pub held: Vec<u8>,
}

impl Flushed {
    pub fn new(alloc: Global, most_flushes: usize) -> Flushed {
        Flushed {
            most_flushes,
            flushes: 0,
            flushed: 0,
            held: Vec::new(alloc),
        }
    }
}

impl Write for Flushed {
    fn write(&mut self, buf: &[u8]) -> io::Result<usize> {
        self.held.extend_from_slice(buf)?;
        Ok(buf.len())
    }

    fn flush(&mut self) -> io::Result<()> {
        if self.flushes >= self.most_flushes {
            return Err(io::Error::from(ErrorKind::Other));
        }
        self.flushes = self.flushes.wrapping_add(1);
        self.flushed = self.held.len();
        Ok(())
    }
}
