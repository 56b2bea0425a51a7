use std::alloc::AllocFailed;
use thiserror::Error;

/// Why rows are not read.
#[derive(Clone, Copy, Debug, PartialEq, Eq, Error)]
pub enum ReadFault {
    /// A column has no whole number.
    #[error("45 BadArchive")]
    BadArchive,
    /// A call of the database failed, for want of memory too.
    #[error("43 Store")]
    Store,
    /// A growth of what is read was refused.
    #[error("90 Memory")]
    Memory,
}

/// What the database answers in place of rows: its own want of memory is a failure like any other.
impl From<sqlite::Error> for ReadFault {
    ghost use Rattle.std.specs.Prelude.{◌≡◌};
    ghost use Rattle.pay_records.specs.declared.fault.ReadFault.TheVariants.{Store};

    ghost from_gives = { λ _ fault. fault ≡ Store };

    fn from(_: sqlite::Error) -> ReadFault {
        ReadFault::Store
    }
}

/// A growth that was refused.
impl<T: Drop> From<AllocFailed<T>> for ReadFault {
    ghost use Rattle.std.specs.Prelude.{◌≡◌};
    ghost use Rattle.pay_records.specs.declared.fault.ReadFault.TheVariants.{Memory};

    ghost from_gives = { λ _ fault. fault ≡ Memory };

    fn from(_failed: AllocFailed<T>) -> ReadFault {
        ReadFault::Memory
    }
}
