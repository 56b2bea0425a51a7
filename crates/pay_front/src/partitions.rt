//! What a front hands lines to.
ghost use Rattle.std.specs.Prelude.{ℕ, List, Option, ◌≡◌, true, false, Some, None};
ghost use Rattle.pay_front.specs.Answers.{given};

/// The partitions of a log, to which lines are handed, each for its reply.
pub trait Partitions: Drop {
    /// What may come of a line: the partitions before it, the number of the one that it is handed to, the line, its reply, if it came in time,
    /// and the partitions after it. Nothing else is known of them, so that only a call shows that a line was handed on, and what came.
    ghost MayGive: { Self → ℕ → List ℕ → Option (List ℕ) → Self → Type 0 };

    /// Hands a line to a partition, without its newline, and says whether its reply came in time. If not, the line may have been taken.
    fn ask(&mut self, partition: u8, line: &[u8], reply: &mut Vec<u8>) -> bool
        ensures { MayGive self.old partition line.now (given result reply.new.items) self.new };
}

/// The clock of a front.
pub trait Now: Drop {
    /// The instant, in seconds of the Unix clock, if it is known.
    fn now(&mut self) -> Option<u64>;
}
