//! What is true of what is told by an account's own lines.
ghost use Rattle.pay_explain_job.specs.Laws.{IsToldAlike, OwnLinesAcceptAlike};

/// Where each line of all journals is accepted, an account has accepted the same by its own lines alone. So what is told of it by all of
/// them, as a text or as a page, is told of it by its own.
pub fn own_lines_accept_alike()
    ensures alike { OwnLinesAcceptAlike }
    ensures told { IsToldAlike }
{
    pay_account_lines::laws::own_lines_ask();
    pay_account_lines::laws::own_are_enough();
}
