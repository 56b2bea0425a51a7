ghost use Rattle.std.specs.Prelude.{◌≡◌, ◌≤◌};
ghost use Rattle.std.specs.List.{list_any};
ghost use Rattle.pay_day.specs.declared.limits.TheConstants.{FIRST_DAY};
ghost use Rattle.pay_shard.specs.Selection.{is_between, is_tap_between, is_fill_between, is_quoted};

use pay_day::monday;
use pay_rules::{Fix, Sets, Tap, What};

fn is_between(from: u32, through: u32, day: u32) -> bool
    ensures { result ≡ is_between from through day }
{
    from <= day && day <= through
}

fn is_tap_between(from: u32, through: u32, tap: &Tap) -> bool
    ensures { result ≡ is_tap_between from through tap.now }
{
    is_between(from, through, tap.stamp.day())
}

/// Whether it is a Fill that adds a tap on one of these days.
fn is_fill_between(from: u32, through: u32, fix: &Fix) -> bool
    ensures { result ≡ is_fill_between from through fix.now }
{
    match fix.what {
        What::Fill(stamp, _, _) => is_between(from, through, stamp.day()),
        _ => false,
    }
}

fn has_tap_between(from: u32, through: u32, taps: &[Tap]) -> bool
    ensures { result ≡ list_any (is_tap_between from through) taps.now }
{
    taps.iter().any(|tap| is_tap_between(from, through, tap))
}

fn has_fill_between(from: u32, through: u32, fixes: &[Fix]) -> bool
    ensures { result ≡ list_any (is_fill_between from through) fixes.now }
{
    fixes.iter().any(|fix| is_fill_between(from, through, fix))
}

/// Whether an account that has accepted these is quoted for the week of a service day through that day: it has a tap or a
/// Fill on one of these days, whether it stands or not.
pub fn is_quoted(sets: &Sets, through: u32) -> bool
    requires { FIRST_DAY ≤ through }
    ensures { result ≡ is_quoted through sets.now }
{
    let from = monday(through);
    has_tap_between(from, through, sets.taps()) || has_fill_between(from, through, sets.fixes())
}
