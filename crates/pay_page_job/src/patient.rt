//! A peer that has so long for its request.

use std::io;
use std::io::{ErrorKind, Read};
use std::net::TcpStream;
use std::rt::Clock;
use std::time::{Duration, Instant};

/// For how many seconds a peer may say nothing.
pub(crate) const SILENCE: u64 = 2;

/// How many seconds it may take for all that it says.
const WHOLE: u64 = 5;

/// Reads from a peer, as long as it has time.
#[derive(Drop)]
pub(crate) struct Patient<'a, R> {
    rt: &'a R,
    stream: &'a TcpStream,
    began: Option<Instant>,
}

impl<'a, R: Clock> Patient<'a, R> {
    /// From now on.
    pub fn new(rt: &'a R, stream: &'a TcpStream) -> Patient<'a, R> {
        Patient {
            rt,
            stream,
            began: Instant::now(rt).ok(),
        }
    }

    /// Whether its time is over.
    fn is_over(&self) -> bool {
        let Some(began) = self.began else {
            return false;
        };
        match Instant::now(self.rt) {
            Ok(now) => now.duration_since(began) > Duration::from_secs(WHOLE),
            Err(_) => false,
        }
    }
}

impl<'a, R: Clock> Read for Patient<'a, R> {
    fn read(&mut self, buf: &mut [u8]) -> io::Result<usize> {
        if self.is_over() {
            return Err(io::Error::from(ErrorKind::TimedOut));
        }
        let mut stream = self.stream;
        stream.read(buf)
    }
}
