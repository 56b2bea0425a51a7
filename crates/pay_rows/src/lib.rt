//! The rows of the ledger's tables: whole numbers, as they are stored.
#![tactic(auto)]

mod row;

pub use row::{FixRow, PostingRow, ShareRow, TapRow};
