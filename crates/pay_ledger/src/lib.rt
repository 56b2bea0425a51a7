//! The ledger in a database: what was posted, and the archive of what it was priced by.
#![tactic(auto)]

mod crashes;
mod examining;
mod fault;
mod last;
mod ledger;
mod lookup;
mod opening;
mod post;
mod read;
mod stretch;
mod write;

pub use examining::Examiner;
pub use fault::{LedgerFault, OpenFault};
pub use last::LastPosting;
pub use ledger::Ledger;
