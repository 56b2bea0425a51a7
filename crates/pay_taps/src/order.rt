ghost use Rattle.std.specs.Prelude.{◌≡◌, ◌≤◌, length, IsOk, OnOk, OnErr};
ghost use Rattle.pay_rules.specs.Order.{in_order, IsInOrder};

use pay_rules::Touch;
use std::alloc::AllocError;

/// Puts effective taps in order: by their instants, accepted ones before filled ones, then by their
/// numbers. Touches that tie stay as they stand. After an `Err` all stand as before.
pub fn sort_touches(list: &mut Vec<Touch>) -> Result<(), AllocError>
    ensures sorted { OnOk result (list.new.items ≡ in_order list.old.items) }
    ensures in_order { OnOk result (IsInOrder list.new.items) }
    ensures as_many { OnOk result (length list.new.items ≡ length list.old.items) }
    ensures err { OnErr result (list.new.items ≡ list.old.items) }
    ensures few { length list.old.items ≤ 20 → IsOk result }
{
    list.sort_by_key(|touch| (touch.stamp.utc(), touch.filled, touch.first, touch.second))
}
