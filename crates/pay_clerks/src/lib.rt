//! The clerks of customer service: who they are, by the staff file, and which of them a browser says that it is.
#![tactic(auto)]

mod clerk;
mod clerks;
mod credentials;
mod fault;
pub mod laws;
pub mod limits;
mod line;
mod numeral;

pub use clerk::Clerk;
pub use clerks::Clerks;
pub use fault::ClerksFault;
