//! What closes over several shards come to. Each law is the contract of a function that does nothing: a caller whose proof needs a law
//! calls its function.
ghost use Rattle.pay_close.specs.Laws.{ShardsGatherAll, ShardsCloseAsMachine, ShardsCloseAsMerge, OneShardGathersAll, OneShardClosesAsMachine};

/// A close over any number of shards is the close of one machine. Where one state of all accounts has of each account what its
/// shard has, and each shard answered by the quotes of its own accounts, what is gathered of these answers is the batch of the one
/// machine over that state, and so what is posted at the close is what a close of that machine says.
pub fn any_shards()
    ensures gathered { ShardsGatherAll }
    ensures closed { ShardsCloseAsMachine }

    // So it is of a machine that was asked, in any merge, all that stood in the shards' journals when each answered.
    ensures merged { ShardsCloseAsMerge }
{
    pay_shard::laws::merge();
}

/// What is gathered of one shard that has all accounts is its batch, as it stands; so what is posted at a close over it is what a
/// close of the machine says.
pub fn one_shard()
    ensures gathered { OneShardGathersAll }
    ensures closed { OneShardClosesAsMachine }
{
    any_shards();
}
