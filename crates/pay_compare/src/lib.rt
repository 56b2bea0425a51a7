//! Whether a fare file prices the days as an older one did: the first day and key where it does not, and what follows for
//! the accounts from agreement.
#![tactic(auto)]

mod comparing;
mod difference;
mod key;
pub mod laws;
mod network;
mod tables;

pub use comparing::first_difference;
pub use difference::Difference;
pub use key::Key;
