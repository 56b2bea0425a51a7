//! Laws of what journals give back, by bytes, whole, cut or torn: [`texts`], of any journals, [`sessions`], of the journal of a session,
//! and [`services`], of the journals of a service's shards. Each law is the contract of a function that does nothing: a caller whose proof
//! needs a law calls its function. No program calls them.
#![tactic(auto)]

pub mod services;
pub mod sessions;
pub mod texts;
