//! The clerks of a staff file.
ghost use Rattle.std.specs.Prelude.{◌≡◌, ◌≢◌, ◌≤◌, Ok, Err, Some, find, option_copied, IfErr, IfOk, OnOk};
ghost use Rattle.pay_clerks.specs.Lines.{clerk_of_row};
ghost use Rattle.pay_clerks.specs.declared.limits.TheConstants.{MOST_LIMIT};
ghost use Rattle.pay_clerks.specs.Files.{clerks_of_text, has_staff, with_clerk, with_line};
ghost use Rattle.pay_clerks.specs.Found.{clerk_of, has_number, is_clerk, staff_named};
ghost use Rattle.pay_clerks.specs.declared.fault.ClerksFault.TheVariants.{Memory};

use crate::clerk::Clerk;
use crate::credentials::{decode, parted, symbols_of};
use crate::fault::ClerksFault;
use crate::limits::{MOST_BYTES, MOST_CLERKS};
use crate::line::{Row, is_skipped, row_of};
use sha2::{Digest, Sha256};
use std::alloc::Global;
use std::marker::Model;

/// The clerks of customer service. In a contract they are a list, in the order of the staff file.
#[derive(Drop)]
pub struct Clerks {
    clerks: Vec<Clerk>,
}

impl Model for Clerks {
    ghost use Rattle.std.specs.Prelude.{List};
    ghost use Rattle.pay_clerks.specs.Clerks.{ClerkOf};

    ghost Value = { List ClerkOf };

    ghost view = { λ it. it.clerks.items };
}

impl Clerks {
    /// The clerks of a staff file's text, or the first line of it by which it is refused.
    pub fn read(alloc: Global, text: &str) -> Result<Clerks, ClerksFault>
        ensures read { IfOk result (λ clerks. clerks_of_text text.now ≡ Ok clerks) }
        ensures refused { IfErr result (λ fault. fault ≢ Memory → clerks_of_text text.now ≡ Err fault) }
    {
        let mut clerks = Clerks {
            clerks: Vec::new(alloc),
        };
        let mut number = 0;
        for line in text.split('\n') {
            number += 1;
            clerks.add_line(alloc, number, line)?;
        }
        Ok(clerks)
    }

    /// Adds the clerk of a line, if it has one.
    fn add_line(&mut self, alloc: Global, number: u64, line: &str) -> Result<(), ClerksFault>
        ensures added { OnOk result (with_line number self.old line.now ≡ Ok self.new) }
        ensures refused { IfErr result (λ fault. fault ≢ Memory → with_line number self.old line.now ≡ Err fault) }
    {
        if is_skipped(line.as_bytes()) {
            return Ok(());
        }
        match row_of(line) {
            Some(row) => self.add_row(alloc, number, &row),
            None => Err(ClerksFault::Line { line: number }),
        }
    }

    /// Adds the clerk of a row.
    fn add_row(&mut self, alloc: Global, number: u64, row: &Row<'_>) -> Result<(), ClerksFault>
        requires first { 1 ≤ row.now.staff }
        requires most { row.now.limit ≤ MOST_LIMIT }
        ensures added { OnOk result (with_clerk number self.old (Some (clerk_of_row row.now)) ≡ Ok self.new) }
        ensures refused { IfErr result (λ fault. fault ≢ Memory → with_clerk number self.old (Some (clerk_of_row row.now)) ≡ Err fault) }
    {
        if has_staff(&self.clerks, row.staff) {
            return Err(ClerksFault::Repeated { line: number });
        }
        if self.clerks.len() >= MOST_CLERKS {
            return Err(ClerksFault::Many);
        }
        let clerk = Clerk::of_row(alloc, row)?;
        if self.clerks.push(clerk).is_err() {
            return Err(ClerksFault::Memory);
        }
        Ok(())
    }

    /// The clerk whose number and secret a browser sends in this value of the field `Authorization`: `Basic `, and then in base64 the number,
    /// a colon and the secret. Whatever follows the first colon is the secret. None for any other value, and for one of more than 1,024
    /// symbols.
    pub fn of(&self, authorization: &[u8]) -> Option<&Clerk>
        ensures { option_copied result ≡ clerk_of self.now authorization.now }
    {
        let mut room = [0; MOST_BYTES];
        let length = decode(symbols_of(authorization)?, &mut room)?;
        let (staff, secret) = parted(&room[..length])?;
        first_of(&self.clerks, staff, &Sha256::digest(secret))
    }

    /// The number of the clerk whom such a value names, whatever its secret. None where it names no clerk.
    pub fn named(&self, authorization: &[u8]) -> Option<u16>
        ensures { result ≡ staff_named self.now authorization.now }
    {
        let mut room = [0; MOST_BYTES];
        let length = decode(symbols_of(authorization)?, &mut room)?;
        let (staff, _) = parted(&room[..length])?;
        Some(first_named(&self.clerks, staff)?.staff())
    }
}

/// The first clerk whose number a text is, and whose secret has this digest.
fn first_of<'a>(clerks: &'a [Clerk], staff: &[u8], digest: &[u8; 32]) -> Option<&'a Clerk>
    ensures { option_copied result ≡ find (is_clerk staff.now digest.now) clerks.now }
{
    clerks.iter().find(|clerk| clerk.has_number(staff) && clerk.has_secret(digest))
}

/// The first clerk whose number a text is.
fn first_named<'a>(clerks: &'a [Clerk], staff: &[u8]) -> Option<&'a Clerk>
    ensures { option_copied result ≡ find (has_number staff.now) clerks.now }
{
    clerks.iter().find(|clerk| clerk.has_number(staff))
}

/// Whether one of the clerks has a staff number.
fn has_staff(clerks: &[Clerk], staff: u16) -> bool
    ensures { result ≡ has_staff staff clerks.now }
{
    clerks.iter().any(|clerk| clerk.staff() == staff)
}
