//! Who watches closes.

use crate::fault::NotClosed;
use pay_ledger::LastPosting;

/// Watches the closes of a session or a service. It may put a close off, and it learns what each one came to. Nothing else that it
/// does changes a reply, a posting or an account.
pub trait Watch {
    /// The ledger agrees with the accounts that a session or a service begins with, and no line of it is answered yet.
    fn begins(&mut self);

    /// Whether a service day, counted from 1970-01-01, may be closed now. If not, the close is refused by 49, before anything is asked.
    fn may_close(&mut self, day: u32) -> bool;

    /// A day was closed. This is the last posting that was made since the ledger was opened, by this close or an earlier one.
    fn closed(&mut self, last: Option<LastPosting>);

    /// A day was not closed.
    fn not_closed(&mut self, day: u32, why: &NotClosed);
}

/// Nobody: each day may be closed at any time.
#[derive(Clone, Copy)]
pub struct NoWatch;

impl Watch for NoWatch {
    fn begins(&mut self) {}

    fn may_close(&mut self, _: u32) -> bool {
        true
    }

    fn closed(&mut self, _: Option<LastPosting>) {}

    fn not_closed(&mut self, _: u32, _: &NotClosed) {}
}
