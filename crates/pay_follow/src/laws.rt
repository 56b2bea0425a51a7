//! What replicas come to. Each law is the contract of a function that does nothing: a caller whose proof needs a law calls its function.
ghost use Rattle.pay_follow.specs.Laws.{ReplicasAgree};

use crate::partition::Partition;

/// Two replicas of one partition publish the same under each place, if each place has one line for all who read it.
pub fn replicas_agree<P: Partition, Q: Partition>()
    ensures { (one : P.Origin) (other : Q.Origin) → ReplicasAgree (P.HasLine one) (Q.HasLine other) }
{}
