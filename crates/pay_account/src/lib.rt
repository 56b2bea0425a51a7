//! What an account has accepted, taps and corrections, and what its days and weeks cost by these.
#![tactic(auto)]

mod account;
mod journeys;
pub mod laws;
mod lines;
mod places;
mod prices;
mod quoting;
mod sets;
mod week_cells;
mod week_lines;

pub use account::Account;
pub use pay_rules::{
    Fares, FixFault, Line, LineKind, Lines, Posting, Postings, Priced, Quote, Sets, Shown, TapFault,
};
