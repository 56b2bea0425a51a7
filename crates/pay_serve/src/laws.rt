//! What a gate keeps of a shard's journal, and what a close over a lane comes to. Each law is the contract of a function that does nothing: a caller whose proof needs a law calls
//! its function.
ghost use Rattle.pay_serve.specs.KeepingGates.{HoldsPassed};
ghost use Rattle.pay_serve.specs.Kept.{KeptAreNew, PassedAreKept};
ghost use Rattle.pay_serve.specs.Lanes.{LanesAsk};
ghost use Rattle.pay_serve.specs.Machines.{ClosesAreOne};

use pay_journal::Keeper;

/// Of what the run of a journal answers, the lines are kept of the items that are newly accepted, but those of the spared lane,
/// once and in order.
pub fn kept_are_new()
    ensures { KeptAreNew }
{}

/// So what a gate let pass it has kept: the line of each newly accepted item of its shard's journal, but those of the spared lane.
pub fn passed_are_kept<K: Keeper>()
    ensures { PassedAreKept K.holds K.HasFailed K.IsSettled }
{}

/// A close over one lane of an office while the others send is the close of one machine which was asked all that stood in each journal before
/// the lane's own entry that asked that shard for its quotes, in any order that keeps that of each.
pub fn closes_are_one()
    ensures { ClosesAreOne }
{
    pay_close::laws::any_shards();
}

/// What a lane has sent is asked for at a port, where what a desk took over it is.
pub fn lanes_ask()
    ensures { LanesAsk }
{}
