//! Whether two commands ask the same.
ghost use Rattle.std.specs.Prelude.{◌≡◌, ◌↔◌, IsTrue};

use pay_rules::Numbered;
use pay_shard::{Asked, Command};

/// Whether two commands ask the same.
pub(crate) fn is_same_command(one: &Command, other: &Command) -> bool
    ensures { IsTrue result ↔ (one.now ≡ other.now) }
{
    match (one.asked(), other.asked()) {
        (Asked::Tap(tap), Asked::Tap(same)) => tap.is_same(&same),
        (Asked::Fix(fix), Asked::Fix(same)) => fix.is_same(&same),
        (
            Asked::Due { account, day },
            Asked::Due {
                account: same_account,
                day: same_day,
            },
        ) => account == same_account && day == same_day,
        (
            Asked::Show { account, day },
            Asked::Show {
                account: same_account,
                day: same_day,
            },
        ) => account == same_account && day == same_day,
        (
            Asked::Quotes { day, shard, of },
            Asked::Quotes {
                day: same_day,
                shard: same_shard,
                of: same_of,
            },
        ) => day == same_day && shard == same_shard && of == same_of,
        _ => false,
    }
}
