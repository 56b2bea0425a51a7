//! What posting quotes comes to, without a database: a list of postings, an archive, the rows that they are stored as, and what
//! a batch of quotes and sets adds to them.
#![tactic(auto)]

mod accounts;
mod archived;
mod batch;
mod judging;
pub mod laws;
mod new_rows;
mod posted;
mod posting_rows;

pub use accounts::LedgerAccounts;
pub use archived::Archived;
pub use batch::PostingBatch;
pub use posted::{Posted, is_kept};
pub use posting_rows::{net_from_rows, posting_row, postings_from_rows, share_rows};
