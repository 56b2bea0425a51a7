//! What a service counts, over all its lanes.
ghost use Rattle.std.specs.Prelude.{◌≡◌, ℕ, ◌≤◌, ◌∷◌, ◌++◌, OnOk, string_bytes, decimal};

use crate::aside::Aside;
use crate::limits::{MOST_PEERS, MOST_STAFF};
use pay_session::Role;
use std::alloc::{AllocError, Global};
use std::fmt::Write;
use std::sync::Arc;
use std::sync::atomic::Ordering::SeqCst;
use std::sync::atomic::{AtomicIn, AtomicU64, Rule};

/// A number that is at most N.
struct AtMost<const N: usize>;

impl<const N: usize> Rule for AtMost<N> {
    ghost use Rattle.std.specs.Prelude.{◌≤◌};

    ghost invariant = { λ n. n ≤ N };
}

/// Room for N connections. More are never taken, whatever other lanes do at the same time.
struct Room<const N: usize> {
    taken: AtomicIn<AtMost<N>>,
}

impl<const N: usize> Drop for Room<N> {
    fn drop(self) {
        let Self { taken: _ } = self;
    }
}

impl<const N: usize> Room<N> {
    /// Of which none is taken.
    fn new() -> Room<N> {
        Room {
            taken: AtomicIn::new(0),
        }
    }

    /// How many are taken.
    fn taken(&self) -> u64
        ensures { result ≤ N }
    {
        self.taken.load(SeqCst)
    }

    /// Takes one, if there is one.
    fn take(&self) -> bool {
        let mut seen = self.taken();
        for _ in 0..u64::MAX {
            if seen >= N as u64 {
                return false;
            }
            match self.taken.compare_exchange(seen, seen + 1, SeqCst, SeqCst) {
                Ok(_) => return true,
                Err(now) => seen = now,
            }
        }
        false
    }

    /// Gives one back.
    fn give_back(&self) {
        let mut seen = self.taken();
        for _ in 0..u64::MAX {
            let less = seen.saturating_sub(1);
            match self.taken.compare_exchange(seen, less, SeqCst, SeqCst) {
                Ok(_) => return,
                Err(now) => seen = now,
            }
        }
    }
}

/// How many numbers of refusals are counted, from 0 on. All that replies give are below.
const REFUSALS: usize = 100;

/// What all lanes of a service count together: its connections, and the replies to its lines.
#[derive(Drop)]
pub struct Tally {
    readers: Room<MOST_PEERS>,
    staff: Room<MOST_STAFF>,
    // All connections that were ever held.
    held: AtomicU64,
    dropped: AtomicU64,
    lines: AtomicU64,
    // Of those that were accepted.
    taps: AtomicU64,
    corrections: AtomicU64,
    again: AtomicU64,
    // By the number of the refusal.
    refused: Vec<AtomicU64>,
}

/// What a reply says of its line.
#[derive(Clone, Copy)]
enum Said {
    Accepted,
    Again,
    Refused(usize),
    Else,
}

/// The number at the front of a text.
fn number(text: &[u8]) -> usize {
    let mut number: usize = 0;
    for byte in text {
        if !byte.is_ascii_digit() {
            break;
        }
        number = number
            .saturating_mul(10)
            .saturating_add(usize::from(*byte - b'0'));
    }
    number
}

/// What a reply says of its line. Only those to `TAP` and `FIX` begin with `OK` or `AGAIN`.
fn read_reply(reply: &[u8]) -> Said {
    if reply.starts_with(b"OK ") {
        return Said::Accepted;
    }
    if reply.starts_with(b"AGAIN ") {
        return Said::Again;
    }
    match reply.strip_prefix(b"NO ") {
        Some(refusal) => Said::Refused(number(refusal)),
        None => Said::Else,
    }
}

/// Puts a name and a number at the end of a line.
fn put(line: &mut String, name: &str, count: u64) -> Result<(), AllocError>
    ensures { OnOk result (string_bytes line.new ≡ string_bytes line.old ++ (32 ∷ name.now ++ 61 ∷ decimal count)) }
{
    write!(line, " {name}={count}")
}

impl Tally {
    /// Before the first connection.
    pub fn new(alloc: Global) -> Result<Tally, AllocError> {
        let mut refused = Vec::with_capacity(alloc, REFUSALS)?;
        for _ in 0..REFUSALS {
            refused.push(AtomicU64::new(0))?;
        }
        Ok(Tally {
            readers: Room::new(),
            staff: Room::new(),
            held: AtomicU64::new(0),
            dropped: AtomicU64::new(0),
            lines: AtomicU64::new(0),
            taps: AtomicU64::new(0),
            corrections: AtomicU64::new(0),
            again: AtomicU64::new(0),
            refused,
        })
    }

    /// Takes room for a connection of whoever asks at a port, if there is any.
    fn take(&self, role: Role) -> bool {
        match role {
            Role::Taps => self.readers.take(),
            Role::All => self.staff.take(),
        }
    }

    /// Gives it back.
    fn give_back(&self, role: Role) {
        match role {
            Role::Taps => self.readers.give_back(),
            Role::All => self.staff.give_back(),
        }
    }

    /// Counts a connection that was dropped as it came.
    pub(crate) fn count_dropped(&self) {
        self.dropped.fetch_add(1, SeqCst);
    }

    /// Counts a connection that is held.
    pub(crate) fn count_held(&self) {
        self.held.fetch_add(1, SeqCst);
    }

    /// Counts a line by its reply, if it has one.
    pub(crate) fn count(&self, line: &[u8], reply: &[u8]) {
        if reply.is_empty() {
            return;
        }
        self.lines.fetch_add(1, SeqCst);
        let counter = match read_reply(reply) {
            Said::Accepted if line.starts_with(b"T") => Some(&self.taps),
            Said::Accepted => Some(&self.corrections),
            Said::Again => Some(&self.again),
            Said::Refused(number) => self.refused.get(number),
            Said::Else => None,
        };
        if let Some(counter) = counter {
            counter.fetch_add(1, SeqCst);
        }
    }

    /// The reply to `STATS`, so many seconds after the service began, with its newline. What is known of files stands at its end.
    pub(crate) fn line<A: Aside>(
        &self,
        alloc: Global,
        seconds: u64,
        aside: &A,
    ) -> Result<String, AllocError> {
        let mut line = String::from_str(alloc, "STATS")?;
        put(&mut line, "seconds", seconds)?;
        let connections = self.readers.taken() + self.staff.taken();
        put(&mut line, "connections", connections)?;
        put(&mut line, "connections_in_all", self.held.load(SeqCst))?;
        put(&mut line, "dropped", self.dropped.load(SeqCst))?;
        put(&mut line, "lines", self.lines.load(SeqCst))?;
        let taps = self.taps.load(SeqCst);
        let corrections = self.corrections.load(SeqCst);
        put(&mut line, "accepted", taps.saturating_add(corrections))?;
        put(&mut line, "again", self.again.load(SeqCst))?;
        put(&mut line, "taps", taps)?;
        put(&mut line, "corrections", corrections)?;
        self.put_refused(&mut line)?;
        aside.put_stats(&mut line)?;
        line.push('\n')?;
        Ok(line)
    }

    /// Puts how many lines were refused by each number, by rising number, of those that occurred.
    fn put_refused(&self, line: &mut String) -> Result<(), AllocError> {
        for (number, counter) in self.refused.iter().enumerate() {
            let count = counter.load(SeqCst);
            if count > 0 {
                write!(line, " refused_{number}={count}")?;
            }
        }
        Ok(())
    }
}

/// A connection's room in a service, which is given back when this is dropped.
pub(crate) struct Seat {
    tally: Arc<Tally>,
    role: Role,
}

impl Drop for Seat {
    fn drop(self) {
        let Self { tally, role } = self;
        tally.give_back(role);
    }
}

impl Seat {
    /// Room for a connection of whoever asks at a port, if there is any.
    pub fn take(tally: &Arc<Tally>, role: Role) -> Option<Seat> {
        let tally = Arc::clone(tally).ok()?;
        if tally.take(role) {
            Some(Seat { tally, role })
        } else {
            None
        }
    }

    /// What the service counts.
    pub fn tally(&self) -> &Tally {
        &self.tally
    }
}
