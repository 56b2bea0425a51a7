//! The long statement of an account's week, for people and spreadsheets: its journeys with the names of places, what
//! caps take off, the Credits, and what was posted. See [`long_statement`].
#![tactic(auto)]

mod fields;
mod journeys;
pub mod laws;
mod row;
mod text;
mod weeks;

pub use weeks::long_statement;
