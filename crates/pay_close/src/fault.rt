//! Why a day is not closed.
ghost use Rattle.std.specs.Prelude.{◌≡◌};
ghost use Rattle.pay_close.specs.Faults.{posted_later, refusal_of_posting};

use pay_ledger::LedgerFault;
use pay_rules::PostFault;
use pay_shard::DeskFault;
use pay_wire::Refusal;
use std::alloc::AllocError;
use thiserror::Error;

/// Why a day is not closed. Nothing was posted.
#[derive(Clone, Copy, Debug, PartialEq, Eq, Error)]
pub enum NotClosed {
    /// 44: the quotes did not all come, for the desk's first fault. That is `Memory` too where a reply brings no quotes.
    #[error("44 DeskFault")]
    Desk(DeskFault),
    /// 43, or what a posting is refused for: 42, 45, 46, 47 or 90. It is 90 too where the memory for the quotes was refused.
    #[error(transparent)]
    Ledger(LedgerFault),
}

impl NotClosed {
    /// Where a later day of the week was posted: an account of which it was, and that day.
    pub fn posted_later(&self) -> Option<(u32, u32)>
        ensures { result ≡ posted_later self.now }
    {
        match self {
            NotClosed::Ledger(
                LedgerFault::Refused(
                    PostFault::StaleQuote {
                        account,
                        through,
                        ..
                    },
                ),
            ) => Some((*account, *through)),
            _ => None,
        }
    }
}

/// A ledger that does not post.
impl From<LedgerFault> for NotClosed {
    ghost use Rattle.std.specs.Prelude.{◌≡◌};
    ghost use Rattle.pay_close.specs.declared.fault.NotClosed.TheVariants.{Ledger};

    ghost from_gives = { λ ledger fault. fault ≡ Ledger ledger };

    fn from(fault: LedgerFault) -> NotClosed {
        NotClosed::Ledger(fault)
    }
}

/// A growth that was refused.
impl From<AllocError> for NotClosed {
    ghost use Rattle.std.specs.Prelude.{◌≡◌};
    ghost use Rattle.pay_close.specs.Faults.{no_memory};

    ghost from_gives = { λ _ fault. fault ≡ no_memory };

    fn from(_: AllocError) -> NotClosed {
        NotClosed::Ledger(LedgerFault::Refused(PostFault::Memory))
    }
}

/// Why a posting is refused, as a session's line says it.
fn refusal_of_posting(fault: PostFault) -> Refusal
    ensures { result ≡ refusal_of_posting fault }
{
    match fault {
        PostFault::BadArchive => Refusal::BadArchive,
        PostFault::StaleQuote { .. } => Refusal::StaleQuote,
        PostFault::QuoteDiffers => Refusal::QuoteDiffers,
        PostFault::ArchiveConflict => Refusal::ArchiveConflict,
        PostFault::Memory => Refusal::Memory,
    }
}

/// Why a day is not closed, as a session's line says it.
impl From<NotClosed> for Refusal {
    ghost use Rattle.std.specs.Prelude.{◌≡◌};
    ghost use Rattle.pay_close.specs.Faults.{refusal_of_close};

    ghost from_gives = { λ why fault. fault ≡ refusal_of_close why };

    fn from(fault: NotClosed) -> Refusal {
        match fault {
            NotClosed::Desk(_) => Refusal::DeskFault,
            NotClosed::Ledger(LedgerFault::Store) => Refusal::Store,
            NotClosed::Ledger(LedgerFault::Refused(why)) => refusal_of_posting(why),
        }
    }
}
