//! Refusals by number and name.
ghost use Rattle.std.specs.Prelude.{◌≡◌, ◌≤◌, length};
ghost use Rattle.pay_wire.specs.Replies.{refusal_number, refusal_name};

use thiserror::Error;

/// Why a line is refused.
#[derive(Clone, Copy, Debug, PartialEq, Eq, Error)]
pub enum Refusal {
    /// 1: the instant of a tap or of a Fill is outside of those that are taken.
    #[error("1 OutOfTime")]
    OutOfTime,
    /// 15: there is no such place, or it is not one for this kind of tap, be it a Fill's.
    #[error("15 UnknownPlace")]
    UnknownPlace,
    /// 20: another tap has this number already.
    #[error("20 Conflict")]
    Conflict,
    /// 21: the account holds as many taps as it can.
    #[error("21 AccountFull")]
    AccountFull,
    /// 22: another correction has this number already.
    #[error("22 FixConflict")]
    FixConflict,
    /// 23: the account holds as many corrections as it can.
    #[error("23 FixesFull")]
    FixesFull,
    /// 30: the queue to the account's shard is full.
    #[error("30 Busy")]
    Busy,
    /// 31: as many commands wait for their replies as may.
    #[error("31 Window")]
    Window,
    /// 34: nothing is closed in this session.
    #[error("34 NotHere")]
    NotHere,
    /// 42: a later quote was posted already.
    #[error("42 StaleQuote")]
    StaleQuote,
    /// 43: the ledger's store failed.
    #[error("43 Store")]
    Store,
    /// 44: the quotes of a close did not come.
    #[error("44 DeskFault")]
    DeskFault,
    /// 45: the ledger holds what is no posting or no archive.
    #[error("45 BadArchive")]
    BadArchive,
    /// 46: the archive has another tap or correction of that number.
    #[error("46 ArchiveConflict")]
    ArchiveConflict,
    /// 47: what is due differs from what was posted for the same quote.
    #[error("47 QuoteDiffers")]
    QuoteDiffers,
    /// 48: the line could not be kept.
    #[error("48 NotKept")]
    NotKept,
    /// 49: the day is not over yet, so that it is not closed.
    #[error("49 NotOver")]
    NotOver,
    /// 50: the line spells no command.
    #[error("50 BadLine")]
    BadLine,
    /// 51: the line has more than [`MOST_LINE_BYTES`](crate::limits::MOST_LINE_BYTES) bytes.
    #[error("51 LongLine")]
    LongLine,
    /// 52: the reply has not come in time; the command may have taken effect.
    #[error("52 Late")]
    Late,
    /// 90: the memory for it was refused.
    #[error("90 Memory")]
    Memory,
}

impl Refusal {
    /// The number that a reply gives.
    pub fn number(self) -> u16
        ensures { result ≡ refusal_number self }
    {
        match self {
            Refusal::OutOfTime => 1,
            Refusal::UnknownPlace => 15,
            Refusal::Conflict => 20,
            Refusal::AccountFull => 21,
            Refusal::FixConflict => 22,
            Refusal::FixesFull => 23,
            Refusal::Busy => 30,
            Refusal::Window => 31,
            Refusal::NotHere => 34,
            Refusal::StaleQuote => 42,
            Refusal::Store => 43,
            Refusal::DeskFault => 44,
            Refusal::BadArchive => 45,
            Refusal::ArchiveConflict => 46,
            Refusal::QuoteDiffers => 47,
            Refusal::NotKept => 48,
            Refusal::NotOver => 49,
            Refusal::BadLine => 50,
            Refusal::LongLine => 51,
            Refusal::Late => 52,
            Refusal::Memory => 90,
        }
    }

    /// The name that a reply gives.
    pub fn name(self) -> &'static str
        ensures value { result.now ≡ refusal_name self }
        ensures short { length result.now ≤ 15 }
    {
        match self {
            Refusal::OutOfTime => "OutOfTime",
            Refusal::UnknownPlace => "UnknownPlace",
            Refusal::Conflict => "Conflict",
            Refusal::AccountFull => "AccountFull",
            Refusal::FixConflict => "FixConflict",
            Refusal::FixesFull => "FixesFull",
            Refusal::Busy => "Busy",
            Refusal::Window => "Window",
            Refusal::NotHere => "NotHere",
            Refusal::StaleQuote => "StaleQuote",
            Refusal::Store => "Store",
            Refusal::DeskFault => "DeskFault",
            Refusal::BadArchive => "BadArchive",
            Refusal::ArchiveConflict => "ArchiveConflict",
            Refusal::QuoteDiffers => "QuoteDiffers",
            Refusal::NotKept => "NotKept",
            Refusal::NotOver => "NotOver",
            Refusal::BadLine => "BadLine",
            Refusal::LongLine => "LongLine",
            Refusal::Late => "Late",
            Refusal::Memory => "Memory",
        }
    }
}
