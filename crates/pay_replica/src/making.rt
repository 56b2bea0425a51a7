//! The streams of a log, made and looked at.
ghost use Rattle.std.specs.Prelude.{◌≡◌, string_bytes, IfOk};
ghost use Rattle.pay_replica.specs.Descriptions.{description, stream_name, subject_of};

use crate::connecting::{Name, NodeClient, connect};
use crate::describing::{ALL_DIGESTS, DIGESTS, LogPlan, joined, stream_of};
use pay_follow::LogFault;
use pay_jetstream::{Stream, StreamPlan, make_digests, make_stream, stream_at};
use std::alloc::{AllocError, Global};
use std::net::{Net, TcpStream};
use std::random::RandomSource;

/// What is done with what a stream says of itself.
pub trait Shows {
    /// Shows how the stream of a partition is.
    fn show(&mut self, partition: u8, stream: &Stream);
}

/// Makes the streams of a log, each with so many replicas, where they are not there already, and shows how they are.
pub fn make_log<R, S>(
    rt: &R,
    alloc: Global,
    plan: &LogPlan<'_>,
    replicas: u8,
    shows: &mut S,
) -> Result<(), LogFault>
where
    R: Net<Stream = TcpStream> + RandomSource,
    S: Shows,
{
    let name = Name::draw(rt)?;
    let mut client = connect(rt, alloc, plan.port, &name)?;
    make_digests(
        alloc,
        &mut client,
        DIGESTS,
        ALL_DIGESTS,
        u64::from(replicas),
    )?;
    for partition in 0..plan.of {
        let stream = make_partition(alloc, &mut client, plan, partition, replicas)?;
        shows.show(partition, &stream);
    }
    Ok(())
}

/// Makes the stream of a partition.
fn make_partition(
    alloc: Global,
    client: &mut NodeClient,
    plan: &LogPlan<'_>,
    partition: u8,
    replicas: u8,
) -> Result<Stream, LogFault> {
    let Ok((name, subject, description)) = texts(alloc, plan, partition) else {
        return Err(LogFault::Memory);
    };
    let stream = StreamPlan {
        name: name.as_str(),
        subject: subject.as_str(),
        description: description.as_str(),
        replicas: u64::from(replicas),
    };
    make_stream(alloc, client, &stream)
}

/// The name of a partition's stream, its subject and its description.
fn texts(
    alloc: Global,
    plan: &LogPlan<'_>,
    partition: u8,
) -> Result<(String, String, String), AllocError>
    ensures name { IfOk result (λ it. string_bytes it.0 ≡ stream_name partition) }
    ensures subject { IfOk result (λ it. string_bytes it.1 ≡ subject_of partition) }
    ensures description { IfOk result (λ it. string_bytes it.2 ≡ description plan.now partition) }
{
    Ok((
        stream_of(alloc, partition)?,
        joined(alloc, "fares.", u64::from(partition), "")?,
        plan.description(alloc, partition)?,
    ))
}

/// Shows how the streams of a log are, which have to be those of the plan.
pub fn check_log<R, S>(
    rt: &R,
    alloc: Global,
    plan: &LogPlan<'_>,
    shows: &mut S,
) -> Result<(), LogFault>
where
    R: Net<Stream = TcpStream> + RandomSource,
    S: Shows,
{
    let name = Name::draw(rt)?;
    let mut client = connect(rt, alloc, plan.port, &name)?;
    for partition in 0..plan.of {
        let Ok((name, _, description)) = texts(alloc, plan, partition) else {
            return Err(LogFault::Memory);
        };
        let stream = stream_at(alloc, &mut client, name.as_str())?;
        shows.show(partition, &stream);
        pay_jetstream::is_had(&stream, description.as_str(), 0)?;
    }
    Ok(())
}
