//! The fare file that is kept beside a journal, with its zone; and whether what the journal gives back comes to the same by another fare
//! file.
#![tactic(auto)]

mod accounts;
mod fault;
mod kept;
mod other;
mod outside;
mod text;

pub use fault::KeptFault;
pub use kept::compare;
pub use text::{has_ledger, kept_text};
