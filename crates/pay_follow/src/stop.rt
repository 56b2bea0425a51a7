//! Why a replica stops.
use pay_wire::Refusal;
use thiserror::Error;

/// What fails of a log.
#[derive(Clone, Copy, Debug, PartialEq, Eq, Error)]
pub enum LogFault {
    /// The connection to it failed, or it said nothing for too long.
    #[error("the log is not reached")]
    NotReached,
    /// Nobody in it answers now: it has no leader, perhaps.
    #[error("nobody in the log answers")]
    NoAnswer,
    /// It gave what no log gives.
    #[error("the log is not understood")]
    NotUnderstood,
    /// It refused what it was asked for, by a number of its own.
    #[error("the log refused by {code}")]
    Refused { code: u64 },
    /// Its server is of a version whose replicas were seen to disagree.
    #[error("the log's server is older than 2.10")]
    TooOld,
    /// What it says of the partition is not what this replica goes by.
    #[error("the log's partition is of other fares, of another zone, or another one")]
    Other,
    /// Its first lines are gone.
    #[error("the log was cut: it begins at place {first}")]
    Cut { first: u64 },
    /// It ends before the line that was read last.
    #[error("the log ends at place {ends}, and place {read} was read")]
    Short { read: u64, ends: u64 },
    /// In place of the next line it gave that of another place.
    #[error("after place {after} the log gave place {gave}")]
    Gap { after: u64, gave: u64 },
    /// The line that was read last is another one by now.
    #[error("the log gave two lines for place {place}")]
    Changed { place: u64 },
    /// Another replica's replies are others than this one's.
    #[error("the replies up to place {place} are others than another replica's")]
    Differs { place: u64 },
    /// Memory for a line, or for a reply, was refused.
    #[error("no memory")]
    Memory,
}

/// Why a replica stops.
#[derive(Clone, Copy, Debug, PartialEq, Eq, Error)]
pub enum Stop {
    /// The next line was not read.
    #[error("{0}")]
    Read(LogFault),
    /// The line that was read last has a reply that another replica may not give, so that it has none here: memory for it was refused, or
    /// the ledger failed.
    #[error("the line has no reply here: {0}")]
    Unanswered(Refusal),
    /// Memory for its reply was refused.
    #[error("no memory for a reply")]
    Memory,
    /// Its reply was perhaps not published.
    #[error("{0}")]
    Unpublished(LogFault),
    /// It stood at the last place that there is.
    #[error("no more places")]
    NoMorePlaces,
}
