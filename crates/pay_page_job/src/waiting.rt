//! How many threads wait for a service at once.
ghost use Rattle.std.specs.Prelude.{◌≡◌, ◌+◌, ◌-◌, if◌then◌else◌, nat_lt};
ghost use Rattle.pay_page_job.specs.declared.waiting.TheConstants.{MOST_WAITING};

/// The most that wait at once. As many others answer browsers meanwhile.
pub(crate) const MOST_WAITING: u32 = 8;

/// How many wait.
#[derive(Clone, Copy)]
pub(crate) struct Waiting {
    /// Their number.
    pub count: u32,
}

impl Waiting {
    /// One more, unless as many wait as may.
    pub fn begin(&mut self) -> bool
        ensures may { result ≡ nat_lt self.old.count MOST_WAITING }
        ensures count { self.new.count ≡ (if nat_lt self.old.count MOST_WAITING then self.old.count + 1 else self.old.count) }
    {
        if self.count < MOST_WAITING {
            self.count += 1;
            true
        } else {
            false
        }
    }

    /// One less.
    pub fn end(&mut self)
        ensures { self.new.count ≡ self.old.count - 1 }
    {
        self.count = self.count.saturating_sub(1);
    }
}
