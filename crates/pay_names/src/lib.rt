//! The names that a fare file gives its stations, its routes and its operators, and its currency. Prices never see them.
#![tactic(auto)]

mod named;
mod reading;

pub use named::Names;
pub use reading::{Called, MOST_NAME, called_in};
