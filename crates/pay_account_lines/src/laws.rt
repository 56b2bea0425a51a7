//! What is true of the lines of one account.
ghost use Rattle.pay_account_lines.specs.Laws.{AskForTheirAccount, OwnAreEnough};

/// The lines of an account ask for what a text asks for of that account.
pub fn own_lines_ask()
    ensures { AskForTheirAccount }
{
    pay_session::laws::cut_at_newlines();
    pay_session::laws::line_by_line();
}

/// Where all requests are accepted or repeats, the account's own alone give it what all of them give.
pub fn own_are_enough()
    ensures { OwnAreEnough }
{
    pay_run::laws::own_requests();
}
