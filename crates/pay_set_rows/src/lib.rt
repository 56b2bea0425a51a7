//! Taps and corrections as rows of whole numbers, and back.
#![tactic(auto)]

pub mod laws;
mod set_rows;

pub use set_rows::{fix_from_row, fix_row, ranged, tap_from_row, tap_row};
