//! A partition of a log, opened at its node again and again.
ghost use Rattle.std.specs.Prelude.{◌≡◌, string_bytes, IfOk};
ghost use Rattle.pay_replica.specs.Descriptions.{answers_of, description, stream_name};

use crate::connecting::{Name, connect};
use crate::describing::{LogPlan, joined, stream_of};
use pay_follow::{LogFault, Opens};
use pay_jetstream::{JetStream, PartitionPlan, open_partition};
use pay_log::{Level, Log};
use std::alloc::{AllocError, Global};
use std::io::BufReader;
use std::net::{Net, TcpStream};
use std::random::RandomSource;
use std::rt::Clock;
use std::sync::Wait;
use std::thread;
use std::time::Duration;

/// For how many milliseconds a replica waits before it opens its partition again.
const PAUSE: u64 = 1_000;

/// A partition at a connection to its node.
pub(crate) type NodeStream = JetStream<BufReader<TcpStream>, TcpStream>;

/// What opens a partition at the node of its log.
#[derive(Drop)]
pub(crate) struct Openings<R: Copy> {
    rt: R,
    alloc: Global,
    port: u16,
    stream: String,
    description: String,
    answers: String,
}

impl<R: Copy> Openings<R> {
    /// That of a partition of a plan.
    pub(crate) fn new(
        rt: R,
        alloc: Global,
        plan: &LogPlan<'_>,
        partition: u8,
    ) -> Result<Openings<R>, AllocError>
        ensures port { IfOk result (λ it. it.port ≡ plan.now.port) }
        ensures stream { IfOk result (λ it. string_bytes it.stream ≡ stream_name partition) }
        ensures description { IfOk result (λ it. string_bytes it.description ≡ description plan.now partition) }
        ensures answers { IfOk result (λ it. string_bytes it.answers ≡ answers_of partition) }
    {
        Ok(Openings {
            rt,
            alloc,
            port: plan.port,
            stream: stream_of(alloc, partition)?,
            description: plan.description(alloc, partition)?,
            answers: joined(alloc, "answers.", u64::from(partition), ".")?,
        })
    }
}

impl<R> Opens<NodeStream> for Openings<R>
where
    R: Net<Stream = TcpStream> + RandomSource + Clock + Wait + Log + Copy,
{
    ghost use Rattle.std.specs.Prelude.{ℕ, List, Option, ⊤};
    ghost use Rattle.pay_jetstream.specs.Given.{IsGivenBy};

    ghost Source = { ⊤ };

    ghost source = { λ _. tt };

    ghost HasLine = { λ _ place line. (origin : ℕ × Option (List ℕ)) × IsGivenBy origin place line };

    fn open(&mut self, last: u64) -> Result<NodeStream, LogFault> {
        let name = Name::draw(&self.rt)?;
        let client = connect(&self.rt, self.alloc, self.port, &name)?;
        let Ok(deliver) = name.subject(self.alloc, ".lines") else {
            return Err(LogFault::Memory);
        };
        let plan = PartitionPlan {
            stream: self.stream.as_str(),
            description: self.description.as_str(),
            answers: self.answers.as_str(),
            deliver: deliver.as_str(),
        };
        open_partition(self.alloc, client, &plan, last)
    }

    fn pause(&mut self, fault: LogFault) {
        self.rt
            .say(Level::Warning, format_args!("farebox: {fault}"));
        thread::sleep(&self.rt, Duration::from_millis(PAUSE));
    }
}
