//! Partitions of a replicated log.
ghost use Rattle.std.specs.Prelude.{◌≡◌, ℕ, suc, List, IfOk, OnOk, OnErr};
ghost use Rattle.pay_follow.specs.Partitions.{PartitionParts, Within, read_on, read_up_to, publish};

use crate::stop::LogFault;

/// A partition of a replicated log: lines at the places 1, 2, 3 and so on, and where the replies to them are published. Places are
/// what NATS JetStream calls sequences, and Kafka offsets. After a fault it is not read on.
pub trait Partition: Drop {
    /// What says which line stands at a place, which stays while the partition is read.
    ghost Origin: { Type 0 };

    /// It, of a partition.
    ghost origin: { Self → Self.Origin };

    /// By it this line stands at this place.
    ghost HasLine: { Self.Origin → ℕ → List ℕ → Type 0 };

    /// What was read and published.
    ghost parts: { Self → PartitionParts };

    /// Reads the line at the next place, without a newline.
    fn read(&mut self, line: &mut Vec<u8>) -> Result<(), LogFault>
        ensures same { origin self.new ≡ origin self.old }
        ensures line { OnOk result (HasLine (origin self.old) (suc (parts self.old).last) line.new.items) }
        ensures next { OnOk result (parts self.new ≡ read_on (parts self.old)) }
        ensures stays { OnErr result (parts self.new ≡ parts self.old) };

    /// Publishes the reply to the line that was read last, under its place.
    fn publish(&mut self, reply: &[u8]) -> Result<(), LogFault>
        ensures same { origin self.new ≡ origin self.old }
        ensures published { OnOk result (parts self.new ≡ publish (parts self.old) reply.now) }
        ensures last { OnErr result ((parts self.new).last ≡ (parts self.old).last) };

    /// The place of the line that was read last.
    fn last(&self) -> u64
        ensures { result ≡ (parts self.now).last };
}

/// What opens a partition, again and again: at a connection to the log, which may be lost.
pub trait Opens<P: Partition>: Drop {
    /// What says which partitions it opens, which stays.
    ghost Source: { Type 0 };

    /// It.
    ghost source: { Self → Self.Source };

    /// By one of these partitions this line stands at this place.
    ghost HasLine: { Self.Source → ℕ → List ℕ → Type 0 };

    /// Opens the partition, of which the line after a place is to be read next.
    fn open(&mut self, last: u64) -> Result<P, LogFault>
        ensures same { source self.new ≡ source self.old }
        ensures lines { IfOk result (λ partition. Within (P.HasLine (P.origin partition)) (HasLine (source self.old))) }
        ensures at { IfOk result (λ partition. P.parts partition ≡ read_up_to last) };

    /// Says why the log is not followed now, and waits.
    fn pause(&mut self, fault: LogFault)
        ensures same { source self.new ≡ source self.old };
}

/// Where the replicas of a partition find out whether their replies are the same.
pub trait Compares: Drop {
    /// Takes into account the reply to the line of a place, which is published after this. It is given again where that was in vain.
    fn compare(&mut self, place: u64, reply: &[u8]) -> Result<(), LogFault>;
}
