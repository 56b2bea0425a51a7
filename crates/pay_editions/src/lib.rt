//! The editions of a fare file: its text read key by key, as the tables and the editions that it says, or its first fault.
#![tactic(auto)]

mod editions;
pub mod laws;
mod lines;
mod reading;

pub use reading::{check_file, fault_place, read_editions};
