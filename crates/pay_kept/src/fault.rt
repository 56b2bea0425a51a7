//! Why accounts do not come to the same by what is kept beside their journal.
ghost use Rattle.std.specs.Prelude.{◌≡◌};
ghost use Rattle.pay_kept.specs.declared.fault.KeptFault.TheVariants.{Memory};

use pay_compare::Key;
use pay_fare_file::{FareFileFault, NamedDay};
use std::alloc::AllocError;
use thiserror::Error;

/// Why accounts do not come to the same by what is kept beside their journal, as one line says it.
#[derive(Clone, Copy, Debug, PartialEq, Eq, Error)]
pub enum KeptFault {
    /// It is kept with another zone, or it is no such text.
    #[error("another zone than the journal's")]
    OtherZone,
    /// Its fare file is refused.
    #[error("the journal's fares: {0}")]
    Refused(FareFileFault),
    /// Its fare file prices this day, counted from 1970-01-01, otherwise by this key, or has not this place; and this account has an
    /// effective tap of this other day, which is no earlier.
    #[error("other fares than the journal's on {}: {key}; account {account} travelled on {}", NamedDay(*.day), NamedDay(*.on))]
    OtherFares {
        day: u32,
        key: Key,
        account: u32,
        on: u32,
    },
    /// 90: no memory.
    #[error("90 Memory")]
    Memory,
}

impl From<AllocError> for KeptFault {
    ghost from_gives = { λ _ fault. fault ≡ Memory };

    fn from(_: AllocError) -> KeptFault {
        KeptFault::Memory
    }
}
