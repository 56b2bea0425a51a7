//! The five tables of the ledger in a database: making them, also of those of version 1, adding rows and reading them.
#![tactic(auto)]

mod copy;
mod fault;
mod kind;
mod read;
mod tables;
mod told;
mod write;

pub use copy::upgrade;
pub use fault::ReadFault;
pub use kind::{DatabaseKind, has_view, kind_of};
pub use read::{
    all_fixes, all_taps, fixed_accounts, fixes_between, fixes_of, posted_accounts,
    postings_between, postings_of, rows_of, shares_between, shares_of, tapped_accounts,
    taps_between, taps_of,
};
pub use tables::make;
pub use write::{add_fix, add_posting, add_share, add_tap};
