//! The job `explain` of the program, by the texts of its fare file, its zone and its journals: why a day of an account was charged, or its
//! week, and what a ledger has of that week. And the same as a page of customer service, and the long statement of a week.
#![tactic(auto)]

mod accounts;
mod corrections;
mod explain;
mod heads;
pub mod laws;
mod own;
mod pages;
mod posted;
mod sets;
mod statement;
mod texts;

pub use corrections::{choice_by_texts, owed_by_texts};
pub use explain::{explain_texts, explain_with_ledger, write_text};
pub use pages::{json_by_texts, page_by_texts};
pub use statement::{statement_by_texts, statement_with_ledger};
