//! A replica, by the texts of its fare file and its zone.

ghost use Rattle.std.specs.Prelude.{◌⊎◌, [], IfOk, IfErr};
ghost use Rattle.pay_jobs.specs.Words.{IsNotBegun, IsWantOfMemory, texts};
ghost use Rattle.pay_replica.specs.Replicas.{HasFollowedFrom};

use crate::describing::LogPlan;
use crate::digests::Digests;
use crate::openings::Openings;
use pay_follow::{Stop, follow_on};
use pay_jobs::{Begun, Fault, begin};
use pay_ledger::Ledger;
use pay_log::Log;
use sqlite::Alter;
use std::alloc::Global;
use std::net::{Net, TcpStream};
use std::random::RandomSource;
use std::rt::Clock;
use std::sync::Wait;

/// Follows a partition of a log from its first line on, over a ledger that was made for it, until it has to stop.
pub fn follow_partition<R, S: Alter>(
    rt: R,
    alloc: Global,
    plan: &LogPlan<'_>,
    partition: u8,
    ledger: &mut Ledger<S>,
) -> Result<Stop, Fault>
where
    R: Net<Stream = TcpStream> + RandomSource + Clock + Wait + Log + Copy,
    ensures followed { IfOk result (λ stop. HasFollowedFrom S.Store plan.now.fares.now plan.now.zone.now ledger.old ledger.new stop) }
    ensures fails { IfErr result (λ fault. IsNotBegun (texts plan.now.fares.now plan.now.zone.now []) fault ⊎ IsWantOfMemory fault) }
{
    let begun = begin(alloc, plan.fares, plan.zone, &[])?;
    let Begun {
        zone,
        desk,
        replayed: _,
    } = begun;
    let mut desk = desk.forgetting();
    let mut opens = Openings::new(rt, alloc, plan, partition)?;
    let mut digests = Digests::new(rt, alloc, plan.port, partition);
    Ok(follow_on(alloc, &mut opens, &mut digests, &zone, &mut desk, ledger))
}
