//! The warnings of a fare file: what one that is read says, and was hardly meant so.
#![tactic(auto)]

mod fares;
mod lint;
mod read_keys;
mod said_tables;
mod unread;
mod warning;

pub use lint::warnings;
pub use warning::{Concern, TableAt, Warning};
