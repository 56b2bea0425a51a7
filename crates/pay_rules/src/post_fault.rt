//! Why quotes and sets are not posted.
use std::alloc::AllocError;
use thiserror::Error;

/// Why a posting is refused. It is shown as its number and name.
#[derive(Clone, Copy, Debug, PartialEq, Eq, Error)]
pub enum PostFault {
    /// 45: the ledger holds what is no posting.
    #[error("45 BadArchive")]
    BadArchive,
    /// 42: a later quote was posted already, of this version and through this day.
    #[error("42 StaleQuote")]
    StaleQuote {
        /// The account of the quote.
        account: u32,
        /// The version that was posted last.
        version: u32,
        /// The day through which it was.
        through: u32,
    },
    /// 47: what is due differs from what was posted for the same version and day.
    #[error("47 QuoteDiffers")]
    QuoteDiffers,
    /// 46: the archive has another tap or correction of that number.
    #[error("46 ArchiveConflict")]
    ArchiveConflict,
    /// 90: the memory for it was refused.
    #[error("90 Memory")]
    Memory,
}

/// A growth that was refused.
impl From<AllocError> for PostFault {
    ghost use Rattle.std.specs.Prelude.{◌≡◌};
    ghost use Rattle.pay_rules.specs.declared.post_fault.PostFault.TheVariants.{Memory};

    ghost from_gives = { λ _ fault. fault ≡ Memory };

    fn from(_: AllocError) -> PostFault {
        PostFault::Memory
    }
}
