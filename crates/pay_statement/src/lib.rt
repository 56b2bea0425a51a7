//! The statement of an account: a row of comma-separated fields for each journey. See [`write_csv`].
#![tactic(auto)]

mod fields;
pub mod laws;
mod statement;

pub use statement::{StatementFault, write_csv};
