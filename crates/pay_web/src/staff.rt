//! Who may correct an account.

use pay_clerks::Clerks;
use std::sync::Arc;

/// The clerks who may correct accounts, and what a form of this site has that no other site knows.
#[derive(Drop)]
pub struct Staff {
    /// The clerks.
    pub clerks: Arc<Clerks>,
    /// What stands in each form that makes a correction: digits and letters, drawn when the site begins.
    pub token: String,
}
