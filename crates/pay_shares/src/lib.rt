//! What falls to each operator: the weights of the operators, by the parts of the journeys' fares, and their
//! shares of what is due.
#![tactic(auto)]

mod due_shares;
pub mod laws;
mod operator_weights;

pub use due_shares::shares;
pub use operator_weights::weights;
