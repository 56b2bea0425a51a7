//! What a ledger has of an account that does not agree with what the account has accepted.
use pay_rules::{Fix, Tap};

/// What a ledger has of an account, and what the account has accepted does not give.
#[derive(Clone, Copy, Debug, PartialEq, Eq)]
pub enum Difference {
    /// This archived tap: of its number the account has none, or another.
    Tap(Tap),
    /// This archived correction, likewise.
    Fix(Fix),
    /// The posting of this week, named by its Monday, through this day: its version is above the account's, or it is the account's, and
    /// what is due is another sum, falls to other operators, or is priced by another edition.
    Posting { week: u32, through: u32 },
}
