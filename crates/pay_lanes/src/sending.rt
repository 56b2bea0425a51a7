//! Sending by one of several ends.
ghost use Rattle.std.specs.Prelude.{◌≡◌, ◌<◌, Some, length, OnOk, IfErr, OnErr, slice_get};
ghost use Rattle.pay_lanes.specs.Parts.{sent_at, IsSenderAt, WasFullAt};

use pay_mailbox::{Outbox, Senders};
use std::sync::Wait;

/// Sends an item by the end at a place. It comes back only if that mailbox was full at one moment of the call.
pub(crate) fn send_at<T: Drop, S: Senders<T>, R: Wait>(
    rt: &R,
    ends: &mut Vec<Outbox<T, S>>,
    place: usize,
    item: T,
) -> Result<(), T>
    requires place { place < length ends.old.items }
    requires own { IsSenderAt (S.sender item) ends.old.items place }
    ensures sent { OnOk result (ends.new.items ≡ sent_at place item ends.old.items) }
    ensures refused { IfErr result (λ back. (back ≡ item) × (ends.new.items ≡ ends.old.items)) }
    ensures full { OnErr result (WasFullAt S.sender ends.old.items place) }
{
    ends[place].send(rt, item)
}
