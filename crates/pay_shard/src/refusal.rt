use thiserror::Error;

/// Why a tap or a correction is refused. Nothing changed.
#[derive(Clone, Copy, Debug, PartialEq, Eq, Error)]
pub enum ShardRefusal {
    /// 15: the fare file has no such place, or one of another sort than the kind of tap needs.
    #[error("15 UnknownPlace")]
    UnknownPlace,
    /// 20: the account has another tap of that number.
    #[error("20 Conflict")]
    Conflict,
    /// 21: the account has as many taps as it may have.
    #[error("21 AccountFull")]
    AccountFull,
    /// 22: the account has another correction of that number.
    #[error("22 FixConflict")]
    FixConflict,
    /// 23: the account has as many corrections as it may have.
    #[error("23 FixesFull")]
    FixesFull,
}
