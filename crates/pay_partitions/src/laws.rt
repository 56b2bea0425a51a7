//! What partitions come to. Each law is the contract of a function that does nothing: a caller whose proof needs a law calls its function.
ghost use Rattle.pay_partitions.specs.Laws.{BatchesAreParts, ClosesInOrder, LedgersAreParts, LedgersArePosted, MovedAreOne, MovesAreTheSame, PartitionsAreOne, PostingsArePosted};

/// Partitions are one machine over all accounts: each account's requests are answered in its partition as among all, and it has accepted the
/// same.
pub fn partitions_are_one()
    ensures { PartitionsAreOne }
{
    pay_run::laws::own_requests();
}

/// Where logs are moved to another number of partitions, each account's requests are answered in the new ones as in the old, and it has
/// accepted the same.
pub fn moves_are_the_same()
    ensures moves { MovesAreTheSame }
    ensures moved { MovedAreOne }
{
    pay_run::laws::own_requests();
}

/// Where quotes are posted and sets archived, those of some accounts alone are so over the part of the ledger that is of these: so what a
/// partition posts is what a ledger of all accounts has of its accounts.
pub fn parts_are_posted()
    ensures postings { PostingsArePosted }
    ensures ledgers { LedgersArePosted }
{}

/// From the beginning, as long as no close of all requests is refused, the ledgers of the partitions are the parts of one ledger, and what
/// a close posts in a partition is what it posts among all for the accounts of the partition.
pub fn ledgers_are_parts()
    // So it is since what a close gets of a partition's accounts is the part of what it gets of all.
    ensures batches { BatchesAreParts }
    ensures ledgers { LedgersAreParts }
{}

/// Where days are closed in order, from the beginning and over a new ledger, no close is refused: so the ledgers of the partitions are the
/// parts of one.
pub fn closes_in_order()
    ensures { ClosesInOrder }
{
    pay_histories::laws::closes_agree();
}
