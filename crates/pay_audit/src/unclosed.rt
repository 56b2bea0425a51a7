//! Which weeks have something that no close has reached.
ghost use Rattle.std.specs.Prelude.{◌≡◌, IfOk};
ghost use Rattle.std.specs.List.{list_any};
ghost use Rattle.pay_day.specs.Words.{IsDay};
ghost use Rattle.pay_rules.specs.SetsParts.{sets};
ghost use Rattle.pay_audit.specs.declared.unclosed.WeekClosed.{WeekClosed};
ghost use Rattle.pay_audit.specs.Unclosed.{is_reached, is_left, is_tap_left, is_fill_left, is_unclosed};

use pay_day::monday;
use pay_rules::{Fares, Fix, Tap, What};
use std::alloc::AllocError;

/// How far a week was closed, and how far all weeks were.
#[derive(Clone, Copy)]
pub struct WeekClosed {
    /// The Monday of the week, counted from 1970-01-01.
    pub week: u32,
    /// The last day through which it was closed, if it was.
    pub through: Option<u32>,
    /// The last day through which any week was closed, and 0 where none was. Later days may not be over.
    pub last: u32,
}

/// Whether a close has reached a day of the week.
fn is_reached(closed: WeekClosed, day: u32) -> bool
    ensures { result ≡ is_reached closed.through day }
{
    match closed.through {
        None => false,
        Some(through) => day <= through,
    }
}

/// Whether a day is one of the week that is over, and no close has reached it.
fn is_left(closed: WeekClosed, day: u32) -> bool
    requires { IsDay day }
    ensures { result ≡ is_left closed day }
{
    monday(day) == closed.week && day <= closed.last && !is_reached(closed, day)
}

/// Whether a tap is of such a day.
fn is_tap_left(closed: WeekClosed, tap: &Tap) -> bool
    ensures { result ≡ is_tap_left closed tap.now }
{
    is_left(closed, tap.stamp.day())
}

/// Whether it is a Fill that adds a tap on such a day.
fn is_fill_left(closed: WeekClosed, fix: &Fix) -> bool
    ensures { result ≡ is_fill_left closed fix.now }
{
    match fix.what {
        What::Fill(stamp, _, _) => is_left(closed, stamp.day()),
        _ => false,
    }
}

/// Whether one of these taps is.
fn has_tap_left(closed: WeekClosed, taps: &[Tap]) -> bool
    ensures { result ≡ list_any (is_tap_left closed) taps.now }
{
    taps.iter().any(|tap| is_tap_left(closed, tap))
}

/// Whether one of these corrections is.
fn has_fill_left(closed: WeekClosed, fixes: &[Fix]) -> bool
    ensures { result ≡ list_any (is_fill_left closed) fixes.now }
{
    fixes.iter().any(|fix| is_fill_left(closed, fix))
}

/// Whether an account has accepted a tap or a Fill, whether it stands or not, on a day of the week that is over and that no close has
/// reached. A close through the Sunday of the week quotes it then. An `Err` is out of memory.
pub fn is_unclosed<F: Fares>(account: &F, closed: WeekClosed) -> Result<bool, AllocError>
    ensures { IfOk result (λ it. it ≡ is_unclosed closed (sets (F.account account.now) (F.accepted account.now))) }
{
    let sets = account.sets()?;
    Ok(has_tap_left(closed, sets.taps()) || has_fill_left(closed, sets.fixes()))
}
