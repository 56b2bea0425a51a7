ghost use Rattle.std.specs.Prelude.{◌≡◌, IfOk};
ghost use Rattle.pay_day.specs.Words.{IsDay};
ghost use Rattle.pay_why.specs.Dues.{is_credit_within, counts, counted_credits, due_reason};

use crate::due::DueReason;
use crate::standing::stands;
use pay_day::monday;
use pay_fix::{Fix, FixSet, What, credits};
use pay_money::Pence;
use pay_week::due;
use std::alloc::{AllocError, Global};

/// Whether a correction is a Credit of one of the days from one through another.
fn is_credit_within(fix: &Fix, from: u32, through: u32) -> bool
    ensures { result ≡ is_credit_within from through fix.now.what }
{
    match fix.what {
        What::Credit(credit) => from <= credit.day() && credit.day() <= through,
        _ => false,
    }
}

/// Whether a correction counts for these days: it is a Credit of one of them, and stands.
fn counts(accepted: &[Fix], fix: &Fix, from: u32, through: u32) -> bool
    ensures { result ≡ counts accepted.now from through fix.now }
{
    stands(accepted, fix) && is_credit_within(fix, from, through)
}

/// The Credits that are taken off a week's price through a day, in the order of their numbers: those of the
/// days from Monday through that day that stand. An `Err` is out of memory.
pub fn counted_credits(alloc: Global, fixes: &FixSet, through: u32) -> Result<Vec<Fix>, AllocError>
    requires { IsDay through }
    ensures { IfOk result (λ list. list.items ≡ counted_credits fixes.now through) }
{
    let accepted = fixes.as_slice();
    let from = monday(through);
    accepted
        .iter()
        .filter(|fix| counts(accepted, fix, from, through))
        .copied()
        .collect(alloc)
}

/// Why so much is due of a week through a day, where it costs so much: the Credits of its days that stand
/// are taken off. What is left of a Credit does not go on to another week.
pub fn due_reason(price: Pence, fixes: &FixSet, through: u32) -> DueReason
    requires { IsDay through }
    ensures { result ≡ due_reason price fixes.now through }
{
    let given = credits(fixes, monday(through), through);
    DueReason {
        price,
        credits: given,
        due: due(price, given),
    }
}
