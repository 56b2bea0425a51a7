//! One report over the ledgers of several partitions: what each operator is owed, and what was charged for each week, and for each
//! account and week.
#![tactic(auto)]

mod fault;
mod homes;
mod job;
pub mod laws;
mod settlement;
mod text;

pub use fault::SettleFault;
pub use homes::Homes;
pub use job::{ReadLedger, settle};
pub use settlement::Settlement;
pub use text::report;
