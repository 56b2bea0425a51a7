//! What the streams of a log are called, and what they say of themselves.
ghost use Rattle.std.specs.Prelude.{◌≡◌, ◌++◌, decimal, string_bytes, IfOk};
ghost use Rattle.pay_replica.specs.Descriptions.{description, hex_digest, stream_name};

use itoa::Buffer;
use sha2::{Digest, Sha256};
use std::alloc::{AllocError, Global};

/// Where a log is, and what it goes by.
#[derive(Clone, Copy)]
pub struct LogPlan<'a> {
    /// The port of its node on this machine.
    pub port: u16,
    /// How many partitions it has.
    pub of: u8,
    /// The text of the fare file.
    pub fares: &'a str,
    /// The text of the time zone, a POSIX rule.
    pub zone: &'a str,
}

/// The stream of digests.
pub(crate) const DIGESTS: &str = "FARES_DIGESTS";

/// The subjects of all digests.
pub(crate) const ALL_DIGESTS: &str = "digests.>";

/// A word, a number and another word, one after another.
pub(crate) fn joined(
    alloc: Global,
    before: &str,
    number: u64,
    after: &str,
) -> Result<String, AllocError>
    ensures { IfOk result (λ text. string_bytes text ≡ before.now ++ (decimal number ++ after.now)) }
{
    let mut text = String::new(alloc);
    text.push_str(before)?;
    text.push_str(Buffer::new().format(number))?;
    text.push_str(after)?;
    Ok(text)
}

/// The SHA-256 of a text, in hexadecimal digits.
pub(crate) fn digest_of(alloc: Global, text: &[u8]) -> Result<String, AllocError>
    ensures { IfOk result (λ digits. string_bytes digits ≡ hex_digest text.now) }
{
    hex::encode(alloc, Sha256::digest(text))
}

impl<'a> LogPlan<'a> {
    /// What the stream of a partition says of itself: which partition it is, of how many, and by which fares and which zone it is priced.
    pub(crate) fn description(&self, alloc: Global, partition: u8) -> Result<String, AllocError>
        ensures { IfOk result (λ text. string_bytes text ≡ description self.now partition) }
    {
        let mut text = joined(alloc, "farebox partition ", u64::from(partition), " of ")?;
        text.push_str(joined(alloc, "", u64::from(self.of), ", fares ")?.as_str())?;
        text.push_str(digest_of(alloc, self.fares.as_bytes())?.as_str())?;
        text.push_str(", zone ")?;
        text.push_str(digest_of(alloc, self.zone.as_bytes())?.as_str())?;
        Ok(text)
    }
}

/// The stream of a partition.
pub(crate) fn stream_of(alloc: Global, partition: u8) -> Result<String, AllocError>
    ensures { IfOk result (λ text. string_bytes text ≡ stream_name partition) }
{
    joined(alloc, "FARES_", u64::from(partition), "")
}
