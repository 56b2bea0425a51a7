ghost use Rattle.std.specs.Prelude.{◌≡◌};
ghost use Rattle.pay_ledger.specs.Faults.{open_fault_number, open_fault_name};

use pay_records::ReadFault;
use pay_rules::PostFault;
use std::alloc::AllocError;
use thiserror::Error;

/// Why a database is not opened as a ledger.
#[derive(Clone, Copy, Debug, PartialEq, Eq, Error)]
pub enum OpenFault {
    /// 40: it has some of a ledger's tables and not all, its one row that names it is missing, or its file holds no database.
    #[error("40 NotALedger")]
    NotALedger,
    /// 41: it is a ledger of another version.
    #[error("41 Version")]
    Version,
    /// 43: a call of the database failed, for want of memory too.
    #[error("43 Store")]
    Store,
    /// 90: a growth was refused. Opening makes none beside those of the database, so it never gives this.
    #[error("90 Memory")]
    Memory,
}

impl OpenFault {
    /// The number that is printed.
    pub fn number(self) -> u16
        ensures { result ≡ open_fault_number self }
    {
        match self {
            OpenFault::NotALedger => 40,
            OpenFault::Version => 41,
            OpenFault::Store => 43,
            OpenFault::Memory => 90,
        }
    }

    /// The name that is printed.
    pub fn name(self) -> &'static str
        ensures { result.now ≡ open_fault_name self }
    {
        match self {
            OpenFault::NotALedger => "NotALedger",
            OpenFault::Version => "Version",
            OpenFault::Store => "Store",
            OpenFault::Memory => "Memory",
        }
    }
}

/// A read that failed. What is not read of a column is refused where the tables are told apart.
impl From<ReadFault> for OpenFault {
    ghost use Rattle.std.specs.Prelude.{◌≡◌};
    ghost use Rattle.pay_ledger.specs.Faults.{open_fault_of_read};

    ghost from_gives = { λ read fault. fault ≡ open_fault_of_read read };

    fn from(fault: ReadFault) -> OpenFault {
        match fault {
            ReadFault::BadArchive => OpenFault::NotALedger,
            ReadFault::Store => OpenFault::Store,
            ReadFault::Memory => OpenFault::Memory,
        }
    }
}

/// A table that was not made, or a commit that failed.
impl From<sqlite::Error> for OpenFault {
    ghost use Rattle.std.specs.Prelude.{◌≡◌};
    ghost use Rattle.pay_ledger.specs.declared.fault.OpenFault.TheVariants.{Store};

    ghost from_gives = { λ _ fault. fault ≡ Store };

    fn from(_: sqlite::Error) -> OpenFault {
        OpenFault::Store
    }
}

/// Why a ledger does not post, nor tell what was posted. It stays as it was.
#[derive(Clone, Copy, Debug, PartialEq, Eq, Error)]
pub enum LedgerFault {
    /// 43: a call of the database failed, for want of memory too.
    #[error("43 Store")]
    Store,
    /// 42, 45, 46, 47 or 90.
    #[error(transparent)]
    Refused(PostFault),
}

/// A refusal by what was posted.
impl From<PostFault> for LedgerFault {
    ghost use Rattle.std.specs.Prelude.{◌≡◌};
    ghost use Rattle.pay_ledger.specs.declared.fault.LedgerFault.TheVariants.{Refused};

    ghost from_gives = { λ refused fault. fault ≡ Refused refused };

    fn from(fault: PostFault) -> LedgerFault {
        LedgerFault::Refused(fault)
    }
}

/// A growth that was refused.
impl From<AllocError> for LedgerFault {
    ghost use Rattle.std.specs.Prelude.{◌≡◌};
    ghost use Rattle.pay_ledger.specs.Faults.{wants_memory};

    ghost from_gives = { λ _ fault. fault ≡ wants_memory };

    fn from(_: AllocError) -> LedgerFault {
        LedgerFault::Refused(PostFault::Memory)
    }
}

/// A read that failed.
impl From<ReadFault> for LedgerFault {
    ghost use Rattle.std.specs.Prelude.{◌≡◌};
    ghost use Rattle.pay_ledger.specs.Faults.{ledger_fault_of_read};

    ghost from_gives = { λ read fault. fault ≡ ledger_fault_of_read read };

    fn from(fault: ReadFault) -> LedgerFault {
        match fault {
            ReadFault::BadArchive => LedgerFault::Refused(PostFault::BadArchive),
            ReadFault::Store => LedgerFault::Store,
            ReadFault::Memory => LedgerFault::Refused(PostFault::Memory),
        }
    }
}

/// A write that failed.
impl From<sqlite::Error> for LedgerFault {
    ghost use Rattle.std.specs.Prelude.{◌≡◌};
    ghost use Rattle.pay_ledger.specs.declared.fault.LedgerFault.TheVariants.{Store};

    ghost from_gives = { λ _ fault. fault ≡ Store };

    fn from(_: sqlite::Error) -> LedgerFault {
        LedgerFault::Store
    }
}
