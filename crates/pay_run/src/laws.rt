//! Laws of the machine by which lines are answered. Each law is the contract of a function that does nothing: a caller whose
//! proof needs a law calls its function.
ghost use Rattle.std.specs.Prelude.{◌≡◌, Some};
ghost use Rattle.pay_shard.specs.declared.asked.Asked.{Asked};
ghost use Rattle.pay_wire.specs.declared.reply.SpelledReply.TheVariants.{No};
ghost use Rattle.pay_session.specs.Words.{asks_of};
ghost use Rattle.pay_session.specs.declared.asks.Asks.TheVariants.{Put};
ghost use Rattle.pay_session.specs.declared.request.Request.{Request};
ghost use Rattle.pay_run.specs.Machine.{Machine, Failure, refusal_of_command, stays, step};
ghost use Rattle.pay_run.specs.Laws.{ZoneStays, EditionsStay, LedgerStays, FailedCloseTells, OthersNeverFail, FailuresLeaveAccounts, AskedAlikeEndsAlike, AcceptedAlikeEndsAlike};
ghost use Rattle.pay_run.specs.Laws.{NewReplayAlone, NewStayNew, NewReplayInAnyOrder, CutLeavesFront, FrontReplaysAsCut, KeptGivesBack, KeptInAnyOrder};
ghost use Rattle.pay_run.specs.OwnRequests.{OwnAlone};

/// Where memory, the store, the desk or what keeps lines fails for a request, no tap and no correction is in the accounts, and
/// nothing is posted. A command is then answered by `NO 48 NotKept` or `NO 90 Memory`, a close by what failed, and all else as ever.
pub fn failures_change_nothing()
    ensures kept { (m : Machine) (r : Request) (failure : Failure) → (step (Some failure) m r).after ≡ m }
    ensures command { (m : Machine) (r : Request) (failure : Failure) (a : Asked) → asks_of m.zone r ≡ Put a → step (Some failure) m r ≡ stays m (No (refusal_of_command failure)) }
    ensures close { FailedCloseTells }
    ensures others { OthersNeverFail }
{}

/// What fails for a close concerns the ledger alone: if no reply is 48 or 90, the accounts are what they are where nothing failed.
pub fn failed_closes_leave_the_accounts()
    ensures { FailuresLeaveAccounts }
{}

/// The charge is the same whatever order taps and corrections arrived in, and however often, over all accounts: the
/// accounts are the same in the end, and by them every later reply to a command.
pub fn order_forgets_arrival()
    // Where each of a list is accepted, or a repeat, so is each of another list that has the same ones; and nothing was closed.
    ensures accepted { AskedAlikeEndsAlike }

    // Where the same ones were accepted, nothing else that was asked makes a difference to the accounts, nor a close, nor what failed.
    ensures among_others { AcceptedAlikeEndsAlike }
{
    pay_shard::laws::order_forgets_arrival();
}

/// A journal of the newly accepted requests of a run gives its accounts back: nothing that was answered is lost with the rest. Over
/// the ledger as the run left it, it gives back the whole machine.
pub fn journals()
    // One journal: by themselves its requests are answered as they were in the run, whatever failed there, and end with its accounts.
    ensures one { NewReplayAlone }

    // So each is newly accepted once more.
    ensures newly { NewStayNew }

    // Many journals: a list that has the same requests, in whatever order, and some of them repeated, is accepted and ends so too.
    ensures many { NewReplayInAnyOrder }

    // A journal that has only its first requests is that of the run that was cut after the last of these,
    ensures cut { CutLeavesFront }

    // and gives back the accounts that this run ended with.
    ensures front { FrontReplaysAsCut }

    // Where a session began with what a journal gives back, and put what it newly accepted after it, the journal gives back where
    // the session ended: so many sessions are as one.
    ensures goes_on { KeptGivesBack }

    // And the order in which a journal has its requests makes no difference.
    ensures any_order { KeptInAnyOrder }
{
    order_forgets_arrival();
    pay_shard::laws::accepted_alone();
}

/// The requests about an account are answered as they would be by themselves, and the account has accepted the same: over which others
/// they were spread, and what was closed between them, makes no difference to it.
pub fn own_requests()
    ensures { OwnAlone }
{}

/// A machine keeps its zone and its fare file, and its ledger where each request is accepted, or was before.
pub fn all_else_stays()
    ensures zone { ZoneStays }
    ensures editions { EditionsStay }
    ensures ledger { LedgerStays }
{}
