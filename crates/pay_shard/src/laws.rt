//! What several shards come to, what order has no effect on, what the newly accepted items come to by themselves, and what a desk
//! comes to that gave a reply at once. Each law is the contract of a function that does nothing: a caller whose proof needs a law
//! calls its function.
ghost use Rattle.pay_shard.specs.Laws.{MergeRepliesAsShards, MergeEndsAsShards, MergeIsHistory, AnswersHaveReplies, AnswersStandAtPlaces, AskedAlikeEndsAlike, AcceptedAlikeEndsAlike, NewRunAlone, NewStayNew, OthersChangeNothing, NewStandAfter, ReplayGoesOn, FrontHasReply, LastCommandIsUnderTicket, LastTicketWaits, StandsAsBefore};

use crate::desk::Desk;

/// Every merge of the shards' journals is a run of one machine over all accounts: each shard's replies in it are those of
/// its own run, and in the end the machine has of each account what its shard has. What is marked rightly in each journal is
/// so in the merge.
pub fn merge()
    ensures replies { MergeRepliesAsShards }
    ensures states { MergeEndsAsShards }
    ensures histories { MergeIsHistory }
{}

/// The answers to a journal are the replies of its run, in order: at each place is the reply there, with the number of the
/// shard, the place, and the ticket and the command of the item.
pub fn answers_of_run()
    ensures replies { AnswersHaveReplies }
    ensures places { AnswersStandAtPlaces }
{}

/// What comes of a journal's items goes on from what came of the first of them, and a reply to one of these is the same
/// whatever stands after them.
pub fn fronts()
    ensures replayed { ReplayGoesOn }
    ensures reply { FrontHasReply }
{}

/// Two journals from one beginning in which the same taps and corrections were accepted, in whatever order and however
/// often, end in one state, and by it is every later reply.
pub fn order_forgets_arrival()
    // Where each of a journal is accepted, or a repeat, so is each of another that asks for the same ones, if memory was
    // refused for none of it.
    ensures accepted { AskedAlikeEndsAlike }

    // Where the same ones were accepted, nothing else that was asked makes a difference, nor whether memory ran out.
    ensures among_others { AcceptedAlikeEndsAlike }
{
    pay_rule_laws::accounts::order_forgets_arrival();
}

/// All that a journal came to is in its newly accepted items, those that are neither refused nor repeats: whoever keeps these
/// alone loses nothing.
pub fn accepted_alone()
    // By themselves they are replied to as they were in the journal, and end where it ends.
    ensures alone { NewRunAlone }

    // So each is newly accepted once more.
    ensures newly { NewStayNew }

    // The others change nothing.
    ensures others { OthersChangeNothing }

    // Where a journal goes on, those that are newly accepted then stand after those of before.
    ensures after { NewStandAfter }
{}

/// A command that a desk took last is the one under its ticket, and waits for its reply; once this is got, the desk stands as
/// it did before.
pub fn put_then_get<D: Desk>()
    ensures command { LastCommandIsUnderTicket }
    ensures waits { LastTicketWaits }
    ensures stands { StandsAsBefore D.Origin }
{}
