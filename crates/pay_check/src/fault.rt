//! Why the job `check` fails.
ghost use Rattle.std.specs.Prelude.{◌≡◌};
ghost use Rattle.pay_check.specs.declared.fault.CheckFault.TheVariants.{Refused};
ghost use Rattle.pay_fare_file.specs.declared.fault.FareFileFault.TheVariants.{Memory};

use pay_compare::Key;
use pay_fare_file::{FareFileFault, NamedDay};
use std::alloc::AllocError;
use thiserror::Error;

/// Why the job fails, as one line says it.
#[derive(Clone, Copy, Debug, PartialEq, Eq, Error)]
pub enum CheckFault {
    /// The fare file is refused, or memory ran out.
    #[error("{0}")]
    Refused(FareFileFault),
    /// The old fare file is refused, or memory ran out.
    #[error("old fares: {0}")]
    OldRefused(FareFileFault),
    /// The fare file prices this day, counted from 1970-01-01, otherwise than the old one, by this key. All days from 4
    /// through `last_alike` are priced alike; there are none where that is 3.
    #[error("other fares on {}: {key}; days agree through {}", NamedDay(*.day), NamedDay(*.last_alike))]
    OtherFares { day: u32, key: Key, last_alike: u32 },
    /// The writer failed.
    #[error("output fault")]
    Output,
}

impl From<FareFileFault> for CheckFault {
    ghost from_gives = { λ of fault. fault ≡ Refused of };

    fn from(fault: FareFileFault) -> CheckFault {
        CheckFault::Refused(fault)
    }
}

impl From<AllocError> for CheckFault {
    ghost from_gives = { λ _ fault. fault ≡ Refused Memory };

    fn from(_: AllocError) -> CheckFault {
        CheckFault::Refused(FareFileFault::Memory)
    }
}
