use std::alloc::AllocError;
use thiserror::Error;

/// Why ledgers are not settled together.
#[derive(Clone, Copy, Debug, PartialEq, Eq, Error)]
pub enum SettleFault {
    /// An account stands in two ledgers.
    #[error("account {account} stands in two ledgers")]
    Shared {
        /// The account.
        account: u32,
        /// The place of the first of these ledgers, from 0 on.
        first: usize,
        /// That of the second.
        second: usize,
    },
    /// What fell to the operators of a posting is not its amount.
    #[error("the shares of a posting of account {account} for the week {week} are not its amount")]
    Shares {
        /// The account.
        account: u32,
        /// The Monday of the week, counted from 1970-01-01.
        week: u32,
    },
    /// A sum has more than 128 bits.
    #[error("a sum is too large")]
    TooLarge,
    /// The memory for it was refused.
    #[error("90 Memory")]
    Memory,
}

/// A growth that was refused.
impl From<AllocError> for SettleFault {
    ghost use Rattle.std.specs.Prelude.{◌≡◌};
    ghost use Rattle.pay_settle.specs.declared.fault.SettleFault.TheVariants.{Memory};

    ghost from_gives = { λ _ fault. fault ≡ Memory };

    fn from(_: AllocError) -> SettleFault {
        SettleFault::Memory
    }
}
