//! The lines of journals by account: [`own_lines`] picks those of one account, and [`AccountLines`] finds those of any without another look
//! at the others.
#![tactic(auto)]

mod account_lines;
pub mod laws;
mod line_mark;
mod picking;

pub use account_lines::{AccountLines, LineFault};
pub use picking::{lines_through, own_lines};
