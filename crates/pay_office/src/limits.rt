//! How long threads of an office look for work, and when they rest.

use pay_lanes::limits::WINDOW;

/// How many commands of a desk wait for their replies at most.
pub const MOST_WAITING: usize = WINDOW as usize;
/// How often a thread that finds nothing looks again before it rests, and lets others run at each.
pub const LOOKS: u32 = 100;
/// How often a desk that waits for a reply rests, until the reply is late.
pub const RESTS: u32 = 10_000;
/// How often it rests, once it is told to wait no longer, until the first reply is late then.
pub const LAST_RESTS: u32 = 100;
/// How long such a rest is at most, in milliseconds, if no answer is sent sooner.
pub const DESK_REST: u64 = 1;
/// How long a worker rests at most, in milliseconds, if no entry is sent sooner: so long it may take to see that it is to stop.
pub const WORKER_REST: u64 = 20;
