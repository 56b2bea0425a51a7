//! Laws of long statements. Each law is the contract of a function that does nothing: a caller whose proof needs a law
//! calls its function.
ghost use Rattle.pay_long_statement.specs.Laws.{AmountsAreDue, PostingsAddNothing, PostingsAddUp};

/// The amounts of a week's rows add up to what is due of it through that day, and what was posted is no part of them.
pub fn amounts_add_up()
    ensures due { AmountsAreDue }
    ensures none { PostingsAddNothing }
{
    pay_why::laws::day_lists();
    pay_why::laws::day_reasons();
    pay_why::laws::week_reasons();
    pay_why::laws::winners();
    pay_why::laws::dues();
}

/// The rows of postings add up to what was charged for the week, less what was given back.
pub fn postings_add_up()
    ensures { PostingsAddUp }
{}
