//! Why a staff file is not taken.
use std::alloc::AllocError;
use thiserror::Error;

/// Why a staff file is not taken.
#[derive(Clone, Copy, Debug, PartialEq, Eq, Error)]
pub enum ClerksFault {
    /// The line of this number, from 1, is no clerk.
    #[error("line {line}: no clerk")]
    Line { line: u64 },
    /// The clerk of this line has the staff number of an earlier one.
    #[error("line {line}: the staff number of an earlier line")]
    Repeated { line: u64 },
    /// There are more than 1,000 clerks.
    #[error("more than 1000 clerks")]
    Many,
    /// 90: no memory.
    #[error("90 Memory")]
    Memory,
}

impl From<AllocError> for ClerksFault {
    ghost use Rattle.std.specs.Prelude.{◌≡◌};
    ghost use Rattle.pay_clerks.specs.declared.fault.ClerksFault.TheVariants.{Memory};

    ghost from_gives = { λ _ fault. fault ≡ Memory };

    fn from(_: AllocError) -> ClerksFault {
        ClerksFault::Memory
    }
}
