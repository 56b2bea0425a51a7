//! Digests of the replies, by which the replicas of a partition find out whether they gave the same.
ghost use Rattle.std.specs.Prelude.{◌≡◌, ◌↔◌, false, List, [], Ok, string_bytes, IsOk, IfErr, IfOk};
ghost use Rattle.pay_follow.specs.declared.stop.LogFault.TheVariants.{Differs};
ghost use Rattle.hex.specs.Hex.{encode_lower};
ghost use Rattle.pay_replica.specs.Descriptions.{digests_subject};
ghost use Rattle.pay_replica.specs.Digested.{HasHeard, heard_on, is_due};

use crate::connecting::{Name, connect};
use crate::describing::{DIGESTS, joined};
use crate::reply_digest::{ReplyDigest, is_due};
use itoa::Buffer;
use pay_follow::{Compares, LogFault};
use pay_jetstream::{Client, last_message, store};
use pay_wire::KnownWriter;
use std::alloc::{AllocError, Global};
use std::io::BufRead;
use std::net::{Net, TcpStream};
use std::random::RandomSource;

/// The digest of all replies of a partition so far, and where it is compared.
#[derive(Drop)]
pub(crate) struct Digests<R: Copy> {
    rt: R,
    alloc: Global,
    port: u16,
    partition: u8,
    digest: ReplyDigest,
}

impl<R: Copy> Digests<R> {
    /// Of no replies yet.
    pub(crate) fn new(rt: R, alloc: Global, port: u16, partition: u8) -> Digests<R>
        ensures none { HasHeard result.digest [] }
        ensures port { result.port ≡ port }
        ensures partition { result.partition ≡ partition }
    {
        Digests {
            rt,
            alloc,
            port,
            partition,
            digest: ReplyDigest::new(),
        }
    }
}

impl<R: Net<Stream = TcpStream> + RandomSource + Copy> Digests<R> {
    /// Takes the reply to a place into account, and compares the digest where that is due.
    fn hear(&mut self, place: u64, reply: &[u8]) -> Result<(), LogFault>
        ensures heard { (entries : List _) → HasHeard self.old.digest entries → HasHeard self.new.digest (heard_on entries place reply.now) }
        ensures not_due { is_due place ≡ false → result ≡ Ok tt }
        ensures partition { self.new.partition ≡ self.old.partition }
    {
        self.digest.hear(place, reply);
        if is_due(place) {
            self.show(place)
        } else {
            Ok(())
        }
    }

    /// Compares the digest up to a place.
    fn show(&self, place: u64) -> Result<(), LogFault> {
        let Ok(digest) = self.digest.digest() else {
            return Err(LogFault::Memory);
        };
        let Ok((subject, text)) = shown(self.alloc, self.partition, place, &digest) else {
            return Err(LogFault::Memory);
        };
        let name = Name::draw(&self.rt)?;
        let mut client = connect(&self.rt, self.alloc, self.port, &name)?;
        agree(
            self.alloc,
            &mut client,
            subject.as_str(),
            text.as_str(),
            place,
        )
    }
}

impl<R: Net<Stream = TcpStream> + RandomSource + Copy> Compares for Digests<R> {
    fn compare(&mut self, place: u64, reply: &[u8]) -> Result<(), LogFault> {
        self.hear(place, reply)
    }
}

/// Under which subject a digest is shown, and the digest.
fn shown(
    alloc: Global,
    partition: u8,
    place: u64,
    digest: &[u8; 32],
) -> Result<(String, String), AllocError>
    ensures subject { IfOk result (λ it. string_bytes it.0 ≡ digests_subject partition place) }
    ensures digest { IfOk result (λ it. string_bytes it.1 ≡ encode_lower digest.now) }
{
    let mut subject = joined(alloc, "digests.", u64::from(partition), ".")?;
    subject.push_str(Buffer::new().format(place))?;
    Ok((subject, hex::encode(alloc, digest.as_slice())?))
}

/// Whether a digest is that of the replica that showed it first, which this one may be.
fn agree<I: BufRead + Drop, W: KnownWriter + Drop>(
    alloc: Global,
    client: &mut Client<I, W>,
    subject: &str,
    digest: &str,
    place: u64,
) -> Result<(), LogFault> {
    if store(alloc, client, subject, digest)? {
        return Ok(());
    }
    let mut first = Vec::new(alloc);
    last_message(alloc, client, DIGESTS, subject, &mut first)?;
    compared(first.as_slice(), digest.as_bytes(), place)
}

/// Whether a digest is the one that was shown first.
fn compared(first: &[u8], digest: &[u8], place: u64) -> Result<(), LogFault>
    ensures same { IsOk result ↔ (first.now ≡ digest.now) }
    ensures other { IfErr result (λ fault. fault ≡ Differs place) }
{
    if first == digest {
        Ok(())
    } else {
        Err(LogFault::Differs { place })
    }
}
