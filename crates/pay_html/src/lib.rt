//! Text as it stands in an HTML page.
#![tactic(auto)]

mod escaped;
pub mod laws;

pub use escaped::Escaped;
