//! Where postings are looked up.

use pay_jobs::Fault;
use pay_rules::Postings;

/// A ledger in which postings are looked up.
pub trait LooksUp {
    /// What was posted for an account and the week from a Monday on, counted from 1970-01-01.
    fn postings(&mut self, account: u32, week: u32) -> Result<Postings, Fault>;
}
