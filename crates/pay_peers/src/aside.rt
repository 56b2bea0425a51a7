//! What a lane does beside its lines.
ghost use Rattle.std.specs.Prelude.{ℕ, List, Option};

use crate::ports::Ports;
use std::alloc::AllocError;
use std::io;
use std::io::ErrorKind;

/// What a lane does beside its lines. Each lane has one of its own, and all are of the same files.
pub trait Aside: Drop {
    /// That the ledger was to be copied: what did it as it was before, the path, how many bytes were copied, and it after that.
    ghost Copies: { Self → List ℕ → Option ℕ → Self → Type 0 };

    /// That staff asked the service to stop: what was told so as it was before, and after that.
    ghost Stops: { Self → Self → Type 0 };

    /// One more, for another lane.
    fn again(&self) -> io::Result<Self>;

    /// Says that lines are answered from now on, and at which ports. Only the lane of staff is asked for this.
    fn begin(&mut self, ports: Ports);

    /// Says that staff asked the service to stop.
    fn stop(&mut self)
        ensures { Stops self.old self.new };

    /// Says that a connection was lost, and why: its peer did not end it.
    fn lose(&mut self, why: ErrorKind);

    /// Adds what is known of files to the reply to `STATS`: for each number a space, its name, an equals sign and it.
    fn put_stats(&self, line: &mut String) -> Result<(), AllocError>;

    /// Whether it keeps refused lines.
    fn keeps_refused(&self) -> bool;

    /// Keeps refused lines, each with its newline. Where it cannot, it says so.
    fn keep_refused(&mut self, lines: &[u8]);

    /// Copies the ledger, to which nothing is posted meanwhile, to a new file at a path, and its log beside that. How many bytes were
    /// copied. Where it cannot, it says so, and leaves nothing there. Only the lane of staff is asked for this.
    fn back_up(&mut self, path: &[u8]) -> Option<u64>
        ensures { Copies self.old path.now result self.new };
}
