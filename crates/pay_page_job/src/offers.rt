//! What pages have beside why an account was charged.

/// What pages have beside why an account was charged.
#[derive(Clone, Copy)]
pub(crate) struct Offers {
    /// Whether accounts may be corrected.
    pub corrects: bool,
    /// Whether a ledger says what was posted.
    pub has_ledger: bool,
}
