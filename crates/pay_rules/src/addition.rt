use std::alloc::{AllocError, AllocFailed};
use thiserror::Error;

/// What an addition that is not refused does to a set.
#[derive(Clone, Copy, Debug, PartialEq, Eq)]
pub enum Addition {
    /// One more is in the set.
    Added,
    /// It was there already, with the same content: nothing changes.
    Repeat,
}

/// Why an addition is refused. The set stays as it was.
#[derive(Clone, Copy, Debug, PartialEq, Eq, Error)]
pub enum AdditionFault {
    /// Another one of the set has its number.
    #[error("Conflict")]
    Conflict,
    /// The set has as many as it may have.
    #[error("Full")]
    Full,
    /// No memory for one more.
    #[error("Memory")]
    Memory,
}

impl<T: Drop> From<AllocFailed<T>> for AdditionFault {
    ghost use Rattle.std.specs.Prelude.{◌≡◌};
    ghost use Rattle.pay_rules.specs.declared.addition.AdditionFault.TheVariants.{Memory};

    ghost from_gives = { λ _ fault. fault ≡ Memory };

    fn from(_failed: AllocFailed<T>) -> AdditionFault {
        AdditionFault::Memory
    }
}

impl From<AllocError> for AdditionFault {
    ghost use Rattle.std.specs.Prelude.{◌≡◌};
    ghost use Rattle.pay_rules.specs.declared.addition.AdditionFault.TheVariants.{Memory};

    ghost from_gives = { λ _ fault. fault ≡ Memory };

    fn from(_error: AllocError) -> AdditionFault {
        AdditionFault::Memory
    }
}
