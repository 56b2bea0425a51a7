//! Why the program fails, and the status that it ends with.
ghost use Rattle.std.specs.Prelude.{◌≡◌};
ghost use Rattle.pay_jobs.specs.Faults.{IsKeptFault, IsRefusal, IsReplayFault, IsUnread, IsWantOfMemory, IsWeekFault, status_of, stream_fault};
ghost use Rattle.pay_fare_file.specs.Words.{fault_number, fault_name};
ghost use Rattle.pay_ledger.specs.Words.{open_fault_number, open_fault_name};

use crate::lacked::Lacked;
use pay_fare_file::{FareFileFault, NamedDay};
use pay_journal::ReplayFault;
use pay_kept::KeptFault;
use pay_ledger::{LedgerFault, OpenFault};
use pay_rules::PostFault;
use pay_run::WeekFault;
use pay_session::SessionFault;
use pay_wire::Refusal;
use std::alloc::AllocError;
use thiserror::Error;

/// Why a file is not taken.
#[derive(Clone, Copy, Debug, PartialEq, Eq, Error)]
pub enum FileFault {
    /// The fare file cannot be read, or is no text.
    #[error("cannot read fares")]
    CannotReadFares,
    /// The old fare file, against which another is checked, cannot be read, or is no text.
    #[error("cannot read old fares")]
    CannotReadOldFares,
    /// The journal cannot be opened or read.
    #[error("cannot use journal")]
    CannotUseJournal,
    /// What is kept beside a journal cannot be read, or is no text.
    #[error("cannot read the journal's fares")]
    CannotReadKeptFares,
    /// The last posting that is noted beside a journal cannot be read.
    #[error("cannot read the journal's last posting")]
    CannotReadLastPosting,
    /// There is no such ledger.
    #[error("no such ledger")]
    NoLedger,
    /// Days of the journal were closed into a ledger, and this one is new.
    #[error("a new ledger beside a journal that had one")]
    NewLedger,
    /// A posting of this account that is noted beside the journal is not in the ledger.
    #[error("another or an older ledger than the journal's: no posting of account {account} for the week from {}, through {}", NamedDay(*.week), NamedDay(*.through))]
    LacksPosting {
        account: u32,
        week: u32,
        through: u32,
    },
}

/// Why the program fails: one line on standard error.
#[derive(Clone, Copy, Debug, PartialEq, Eq, Error)]
pub enum Fault {
    /// The words are not those of a program.
    #[error("farebox: usage")]
    Usage,
    /// A file cannot be used, or it is another's.
    #[error("farebox: {0}")]
    File(FileFault),
    /// The zone is no POSIX rule.
    #[error("farebox: bad zone")]
    BadZone,
    /// A port cannot be listened on.
    #[error("farebox: cannot listen")]
    CannotListen,
    /// Standard input failed.
    #[error("farebox: input fault")]
    Input,
    /// Standard output failed.
    #[error("farebox: output fault")]
    Output,
    /// What the journal gives back does not come to the same by what is kept beside it.
    #[error("farebox: {0}")]
    Kept(KeptFault),
    /// The line of this number of the journal, from 1, is not accepted.
    #[error("farebox: journal line {line}: {why}")]
    JournalLine {
        line: u64,
        why: Refusal,
    },
    /// The line of this number, from 1, of one of several journals, which is named by its own number, is not accepted.
    #[error("farebox: journal {journal} line {line}: {why}")]
    JournalLineOf {
        journal: u64,
        line: u64,
        why: Refusal,
    },
    /// Something that was accepted was not kept, or not settled.
    #[error("farebox: journal fault")]
    Journal,
    /// A ledger archives something, and its journal has no line.
    #[error("farebox: ledger without its journal")]
    LedgerAlone,
    /// A ledger archives this, and its journal does not give it back.
    #[error("farebox: in the ledger and not in the journal: {0}")]
    Lacks(Lacked),
    /// What was posted for this account is not what is due by its journal and this fare file.
    #[error("farebox: account {account} was posted otherwise for the week from {}, through {}", NamedDay(*.week), NamedDay(*.through))]
    PostedOtherwise {
        account: u32,
        week: u32,
        through: u32,
    },
    /// A refusal, by its number and its name.
    #[error("farebox: {number} {name}")]
    Refused {
        number: u16,
        name: &'static str,
    },
}

impl Fault {
    /// The status that the program ends with.
    pub fn status(self) -> u8
        ensures { result ≡ status_of self }
    {
        match self {
            Fault::Usage => 2,
            _ => 1,
        }
    }
}

impl From<AllocError> for Fault {
    ghost from_gives = { λ _ fault. IsWantOfMemory fault };

    fn from(_: AllocError) -> Fault {
        Fault::Refused {
            number: 90,
            name: "Memory",
        }
    }
}

impl From<FareFileFault> for Fault {
    ghost from_gives = { λ of fault. IsRefusal fault (fault_number of) (fault_name of) };

    fn from(fault: FareFileFault) -> Fault {
        Fault::Refused {
            number: fault.number(),
            name: fault.name(),
        }
    }
}

impl From<OpenFault> for Fault {
    ghost from_gives = { λ of fault. IsRefusal fault (open_fault_number of) (open_fault_name of) };

    fn from(fault: OpenFault) -> Fault {
        Fault::Refused {
            number: fault.number(),
            name: fault.name(),
        }
    }
}

/// What is read of a ledger and is no account's is refused by 45.
impl From<LedgerFault> for Fault {
    ghost from_gives = { λ of fault. IsUnread of fault };

    fn from(fault: LedgerFault) -> Fault {
        match fault {
            LedgerFault::Store => Fault::from(OpenFault::Store),
            LedgerFault::Refused(PostFault::Memory) => Fault::from(AllocError),
            LedgerFault::Refused(_) => Fault::Refused {
                number: 45,
                name: "BadArchive",
            },
        }
    }
}

impl From<SessionFault> for Fault {
    ghost from_gives = { λ of fault. fault ≡ stream_fault of };

    fn from(fault: SessionFault) -> Fault {
        match fault {
            SessionFault::Read { .. } => Fault::Input,
            SessionFault::Write { .. } => Fault::Output,
        }
    }
}

impl From<ReplayFault> for Fault {
    ghost from_gives = { λ of fault. IsReplayFault of fault };

    fn from(fault: ReplayFault) -> Fault {
        match fault {
            ReplayFault::Line { line, why } => Fault::JournalLine { line, why },
            ReplayFault::Memory => Fault::from(AllocError),
        }
    }
}

impl From<WeekFault> for Fault {
    ghost from_gives = { λ of fault. IsWeekFault of fault };

    fn from(fault: WeekFault) -> Fault {
        match fault {
            WeekFault::Broken { .. } => Fault::Input,
            WeekFault::NotAccepted { line, why } => Fault::JournalLine { line, why },
            WeekFault::Memory => Fault::from(AllocError),
        }
    }
}

impl From<KeptFault> for Fault {
    ghost from_gives = { λ of fault. IsKeptFault of fault };

    fn from(fault: KeptFault) -> Fault {
        match fault {
            KeptFault::Memory => Fault::from(AllocError),
            other => Fault::Kept(other),
        }
    }
}
