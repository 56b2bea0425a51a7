//! A clerk of customer service.
ghost use Rattle.std.specs.Prelude.{◌≡◌, ◌≤◌, decimal, IfOk};
ghost use Rattle.std.specs.Str.{bytes_eq};
ghost use Rattle.pay_clerks.specs.Lines.{clerk_of_row};
ghost use Rattle.pay_clerks.specs.declared.limits.TheConstants.{MOST_LIMIT};

use crate::line::Row;
use crate::numeral::is_numeral_of;
use std::alloc::{AllocError, Global};
use std::marker::Model;

/// A clerk of customer service. In a contract it is the record of the staff number, the limit, the digest of the secret, and the name.
#[derive(Drop)]
pub struct Clerk {
    staff: u16,
    limit: u32,
    secret: [u8; 32],
    name: String,
}

impl Model for Clerk {
    ghost use Rattle.std.specs.Prelude.{◌≤◌, string_bytes};
    ghost use Rattle.pay_clerks.specs.Clerks.{ClerkOf};
    ghost use Rattle.pay_clerks.specs.declared.limits.TheConstants.{MOST_LIMIT};

    ghost Value = { ClerkOf };

    ghost view = { λ clerk. record { staff = clerk.staff; limit = clerk.limit; secret = clerk.secret; name = string_bytes clerk.name } };

    ghost invariant = { λ clerk. (1 ≤ clerk.staff) × (clerk.limit ≤ MOST_LIMIT) };
}

impl Clerk {
    /// The clerk of a line.
    pub(crate) fn of_row(alloc: Global, row: &Row<'_>) -> Result<Clerk, AllocError>
        requires first { 1 ≤ row.now.staff }
        requires most { row.now.limit ≤ MOST_LIMIT }
        ensures { IfOk result (λ clerk. clerk ≡ clerk_of_row row.now) }
    {
        Ok(Clerk {
            staff: row.staff,
            limit: row.limit,
            secret: row.secret,
            name: String::from_str(alloc, row.name)?,
        })
    }

    /// The staff number, which the clerk's corrections carry: 1 to 65,535.
    pub fn staff(&self) -> u16
        ensures value { result ≡ self.now.staff }
        ensures first { 1 ≤ result }
    {
        self.staff
    }

    /// The most pence that one Credit of the clerk may have: up to 100,000.
    pub fn limit(&self) -> u32
        ensures value { result ≡ self.now.limit }
        ensures most { result ≤ MOST_LIMIT }
    {
        self.limit
    }

    /// What a page calls the clerk.
    pub fn name(&self) -> &str
        ensures { result.now ≡ self.now.name }
    {
        self.name.as_str()
    }

    /// Whether a text is the clerk's number.
    pub(crate) fn has_number(&self, text: &[u8]) -> bool
        ensures { result ≡ bytes_eq text.now (decimal self.now.staff) }
    {
        is_numeral_of(text, u32::from(self.staff))
    }

    /// Whether the clerk's secret has this digest.
    pub(crate) fn has_secret(&self, digest: &[u8; 32]) -> bool
        ensures { result ≡ bytes_eq digest.now self.now.secret }
    {
        *digest == self.secret
    }
}
