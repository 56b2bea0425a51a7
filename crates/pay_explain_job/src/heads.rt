//! The first line of a text, which says whose day or week it is, and in which currency its amounts are.
ghost use Rattle.std.specs.Prelude.{◌≡◌, ◌++◌, IfOk};
ghost use Rattle.std.specs.String.{string_bytes};
ghost use Rattle.pay_day.specs.Words.{IsDay};
ghost use Rattle.pay_explain_job.specs.Heads.{day_head, week_head};

use pay_dates::{DatedDay, DatedWeek};
use pay_day::monday;
use std::alloc::{AllocError, Global};

/// The text of a day, below whose day it is.
pub fn with_day_head(
    alloc: Global,
    currency: &str,
    account: u32,
    day: u32,
    below: &str,
) -> Result<String, AllocError>
    requires { IsDay day }
    ensures { IfOk result (λ text. string_bytes text ≡ day_head currency.now account day ++ below.now) }
{
    let day = DatedDay::of(day);
    let mut text = String::new(alloc);
    write!(text, "account {account}, {day}, in {currency}\n{below}")?;
    Ok(text)
}

/// The text of a week through a day, below whose week it is.
pub fn with_week_head(
    alloc: Global,
    currency: &str,
    account: u32,
    through: u32,
    below: &str,
) -> Result<String, AllocError>
    requires { IsDay through }
    ensures { IfOk result (λ text. string_bytes text ≡ week_head currency.now account through ++ below.now) }
{
    let week = DatedWeek {
        from: DatedDay::of(monday(through)),
        through: DatedDay::of(through),
    };
    let mut text = String::new(alloc);
    write!(text, "account {account}, {week}, in {currency}\n{below}")?;
    Ok(text)
}
