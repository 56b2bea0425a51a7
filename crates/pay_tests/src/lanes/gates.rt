//! Gates that count, and wait until a count is high enough.

use pay_lanes::{Gate, Load};
use pay_shard::{Answer, Entry};
use std::process::Abort;
use std::sync::atomic::{AtomicU64, Ordering};
use std::sync::{Arc, Wait};
use std::thread;
use std::time::Duration;

type Count = Arc<AtomicU64>;

fn new_count<R: Abort + AllocGlobal>(rt: &R) -> Count {
    Arc::new(rt.alloc(), AtomicU64::new(0)).expect(rt, "memory")
}

fn same_count<R: Abort>(rt: &R, count: &Count) -> Count {
    Arc::try_clone(count).expect(rt, "memory")
}

/// What gates and a test tell each other.
#[derive(Drop)]
pub struct Counts {
    // How many entries the gates were passed with.
    entered: Count,
    // How far the gates are opened.
    opened: Count,
    // How many entries had to pass a gate that did not open.
    ran_out: Count,
    // What a worker had on hand at its last answer.
    accounts: Count,
    waiting: Count,
}

impl Counts {
    /// Of gates that a test opens.
    pub fn new<R: Abort + AllocGlobal>(rt: &R) -> Counts {
        Counts {
            entered: new_count(rt),
            opened: new_count(rt),
            ran_out: new_count(rt),
            accounts: new_count(rt),
            waiting: new_count(rt),
        }
    }

    /// Of gates that open each other: by one with each entry.
    pub fn meeting<R: Abort + AllocGlobal>(rt: &R) -> Counts {
        let entered = new_count(rt);
        Counts {
            opened: same_count(rt, &entered),
            entered,
            ran_out: new_count(rt),
            accounts: new_count(rt),
            waiting: new_count(rt),
        }
    }

    // The same ones, for one more.
    fn again<R: Abort>(&self, rt: &R) -> Counts {
        Counts {
            entered: same_count(rt, &self.entered),
            opened: same_count(rt, &self.opened),
            ran_out: same_count(rt, &self.ran_out),
            accounts: same_count(rt, &self.accounts),
            waiting: same_count(rt, &self.waiting),
        }
    }

    /// Opens the gates by one.
    pub fn open(&self) {
        self.opened.fetch_add(1, Ordering::SeqCst);
    }

    /// How many entries had to pass a gate that did not open.
    pub fn ran_out(&self) -> u64 {
        self.ran_out.load(Ordering::SeqCst)
    }

    /// How many accounts a worker had at its last answer, and how many entries waited then.
    pub fn load(&self) -> (u64, u64) {
        let accounts = self.accounts.load(Ordering::SeqCst);
        (accounts, self.waiting.load(Ordering::SeqCst))
    }

    /// Waits until a gate was passed with an entry.
    pub fn await_entry<R: Wait>(&self, rt: &R) {
        for _ in rt.forever() {
            if self.entered.load(Ordering::SeqCst) > 0 {
                break;
            }
            self.entered.park_timeout(rt, 0, Duration::from_millis(1));
        }
    }

    fn is_open(&self, opens_at: u64) -> bool {
        self.opened.load(Ordering::SeqCst) >= opens_at
    }

    // Looks so often at most whether the gates are opened so far, and lets others run in between.
    fn look(&self, opens_at: u64, looks: u64) {
        for _ in 0..looks {
            if self.is_open(opens_at) {
                return;
            }
            thread::yield_now();
        }
        self.ran_out.fetch_add(1, Ordering::SeqCst);
    }

    // Rests until the gates are opened so far.
    fn rest<R: Wait>(&self, rt: &R, opens_at: u64) {
        for _ in rt.forever() {
            if self.is_open(opens_at) {
                break;
            }
            self.opened.park_timeout(rt, 0, Duration::from_millis(1));
        }
    }
}

/// A gate that counts each entry, and waits with it until the gates are opened so far.
#[derive(Drop)]
pub struct Counting {
    counts: Counts,
    opens_at: u64,
    // How often it looks at most; or else it waits until it is opened.
    looks: Option<u64>,
}

impl Gate for Counting {
    ghost use Rattle.std.specs.Prelude.{⊤, None, false};

    ghost Holds = { λ _ _ _. ⊤ };

    ghost began = { λ _. None };

    ghost forgets = { false };

    fn forgets() -> bool {
        false
    }

    fn before_job<R: Wait>(&mut self, rt: &R, _shard: u8, _entry: &Entry) {
        self.counts.entered.fetch_add(1, Ordering::SeqCst);
        match self.looks {
            Some(looks) => self.counts.look(self.opens_at, looks),
            None => self.counts.rest(rt, self.opens_at),
        }
    }

    fn after_job<R: Wait>(
        &mut self,
        _rt: &R,
        load: Load,
        _entry: &Entry,
        _answer: &Answer,
    ) -> bool {
        self.counts
            .accounts
            .store(load.accounts as u64, Ordering::SeqCst);
        self.counts
            .waiting
            .store(load.waiting as u64, Ordering::SeqCst);
        true
    }
}

/// A gate for each shard, which opens there.
pub fn gates<R: Abort + AllocGlobal>(
    rt: &R,
    counts: &Counts,
    opens_at: &[u64],
    looks: Option<u64>,
) -> Vec<Counting> {
    let mut gates = Vec::new(rt.alloc());
    for opens_at in opens_at {
        let gate = Counting {
            counts: counts.again(rt),
            opens_at: *opens_at,
            looks,
        };
        gates.push(gate).expect(rt, "memory");
    }
    gates
}
