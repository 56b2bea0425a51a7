//! A digest of replies, each behind its place.
ghost use Rattle.std.specs.Prelude.{◌≡◌, ℕ, List, [], IfOk};
ghost use Rattle.sha2.specs.Sha256.{sha256};
ghost use Rattle.pay_replica.specs.Digested.{HasHeard, entries_text, heard_on, is_due};

use itoa::Buffer;
use sha2::{Digest, Sha256};
use std::alloc::AllocError;

/// After how many places replicas compare their digests.
const STRETCH: u64 = 10_000;

/// The digest of the replies to all places so far.
#[derive(Drop)]
pub(crate) struct ReplyDigest {
    hasher: Sha256,
    // The last place whose reply it has.
    heard: u64,
}

impl ReplyDigest {
    /// Of no replies yet.
    pub(crate) fn new() -> ReplyDigest
        ensures { HasHeard result [] }
    {
        ReplyDigest {
            hasher: Sha256::new(),
            heard: 0,
        }
    }

    /// Takes the reply to a place into account, once: it is given again where it could not be published.
    pub(crate) fn hear(&mut self, place: u64, reply: &[u8])
        ensures { (entries : List _) → HasHeard self.old entries → HasHeard self.new (heard_on entries place reply.now) }
    {
        if place <= self.heard {
            return;
        }
        self.hasher.update(Buffer::new().format(place).as_bytes());
        self.hasher.update(b" ");
        self.hasher.update(reply);
        self.heard = place;
    }

    /// The digest of what was heard so far.
    pub(crate) fn digest(&self) -> Result<[u8; 32], AllocError>
        ensures { (entries : List _) → HasHeard self.now entries → IfOk result (λ digest. digest ≡ sha256 (entries_text entries)) }
    {
        Ok(self.hasher.clone()?.finalize())
    }
}

/// Whether replicas compare their digests at a place.
pub(crate) fn is_due(place: u64) -> bool
    ensures { result ≡ is_due place }
{
    place % STRETCH == 0
}
