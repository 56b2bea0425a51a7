//! Why nothing is served any more.

use crate::begins::LaneFault;
use pay_office::StartFault;
use pay_wire::{Refusal, WriteFault};
use std::alloc::AllocError;
use thiserror::Error;

/// Why nothing is served any more, or no day is closed.
#[derive(Clone, Copy, Debug, PartialEq, Eq, Error)]
pub enum ServeFault {
    /// A port is not there to be listened on.
    #[error("cannot listen")]
    CannotListen,
    /// 32: the number of shards is not from 1 to 16, or that of lanes not from 1 to 15.
    #[error("32 Count")]
    Count,
    /// 35: the system refused a thread.
    #[error("35 NoThread")]
    NoThread,
    /// 90: no memory.
    #[error("90 Memory")]
    Memory,
    /// The line of this number, from 1, of the journal of this one, from 0, is not accepted once more.
    #[error("journal {journal} line {line}: {why}")]
    JournalLine {
        journal: u64,
        line: u64,
        why: Refusal,
    },
    /// Something that was accepted is not kept, or not settled.
    #[error("journal fault")]
    Journal,
    /// The lines of the close cannot be written.
    #[error("output fault")]
    Output,
}

impl From<AllocError> for ServeFault {
    ghost use Rattle.std.specs.Prelude.{◌≡◌};
    ghost use Rattle.pay_serve.specs.declared.fault.ServeFault.TheVariants.{Memory};

    ghost from_gives = { λ _ fault. fault ≡ Memory };

    fn from(_: AllocError) -> ServeFault {
        ServeFault::Memory
    }
}

impl From<StartFault> for ServeFault {
    ghost use Rattle.std.specs.Prelude.{◌≡◌};
    ghost use Rattle.pay_serve.specs.Lanes.{serve_fault};

    ghost from_gives = { λ from fault. fault ≡ serve_fault from };

    fn from(fault: StartFault) -> ServeFault {
        match fault {
            StartFault::Count => ServeFault::Count,
            StartFault::NoThread => ServeFault::NoThread,
            StartFault::Memory => ServeFault::Memory,
        }
    }
}

impl From<LaneFault> for ServeFault {
    ghost use Rattle.std.specs.Prelude.{◌≡◌};
    ghost use Rattle.pay_serve.specs.Lanes.{lane_fault};

    ghost from_gives = { λ from fault. fault ≡ lane_fault from };

    fn from(fault: LaneFault) -> ServeFault {
        match fault {
            LaneFault::NoThread => ServeFault::NoThread,
            LaneFault::Memory => ServeFault::Memory,
        }
    }
}

impl From<WriteFault> for ServeFault {
    ghost use Rattle.std.specs.Prelude.{◌≡◌};
    ghost use Rattle.pay_serve.specs.declared.fault.ServeFault.TheVariants.{Output};

    ghost from_gives = { λ _ fault. fault ≡ Output };

    fn from(_: WriteFault) -> ServeFault {
        ServeFault::Output
    }
}
