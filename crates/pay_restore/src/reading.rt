ghost use Rattle.std.specs.Prelude.{◌≡◌, ◌≤◌, IfSome};
ghost use Rattle.pay_restore.specs.Restored.{account_number, tap_of_row, fix_of_row};

use pay_rows::{FixRow, TapRow};
use pay_rules::{Fix, Tap};
use pay_set_rows::{fix_from_row, tap_from_row};

/// The number of an account, which counts from 1.
fn account_number(number: i64) -> Option<u32>
    ensures value { result ≡ account_number number }
    ensures from_1 { IfSome result (λ account. 1 ≤ account) }
{
    if number < 0 {
        return None;
    }
    let natural = number as u64;
    if 1 <= natural && natural <= u64::from(u32::MAX) {
        Some(natural as u32)
    } else {
        None
    }
}

/// The tap of a row that stands beside its account, if each number is in its range.
pub(crate) fn tap_of_row(row: &(i64, TapRow)) -> Option<Tap>
    ensures value { result ≡ tap_of_row row.now }
    ensures from_1 { IfSome result (λ tap. 1 ≤ tap.account) }
{
    let account = account_number(row.0)?;
    tap_from_row(account, &row.1)
}

/// The correction of such a row.
pub(crate) fn fix_of_row(row: &(i64, FixRow)) -> Option<Fix>
    ensures value { result ≡ fix_of_row row.now }
    ensures from_1 { IfSome result (λ fix. 1 ≤ fix.account) }
{
    let account = account_number(row.0)?;
    fix_from_row(account, &row.1)
}
