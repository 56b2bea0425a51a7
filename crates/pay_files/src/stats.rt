//! What is known of files, of memory and of closes, for who asks how a service is.
ghost use Rattle.std.specs.Prelude.{◌≡◌, ◌++◌, OnOk, string_bytes};
ghost use Rattle.pay_files.specs.Logged.{named};

use crate::journal::{JOURNALS, path_in};
use std::alloc::AllocError;
use std::fmt::Write;
use std::fs::Files;
use std::{fs, io};

/// How many bytes a page of memory has.
const PAGE_BYTES: u64 = 4_096;

/// Puts a name and a number at the end of a line, if the number is known.
pub fn put(line: &mut String, name: &str, number: Option<u64>) -> Result<(), AllocError>
    ensures { OnOk result (string_bytes line.new ≡ string_bytes line.old ++ named name.now number) }
{
    match number {
        Some(number) => write!(line, " {name}={number}"),
        None => Ok(()),
    }
}

/// How many bytes all journals in a folder have.
pub fn journal_bytes<R: Files + AllocGlobal>(rt: &R, folder: &str) -> io::Result<u64> {
    let mut bytes: u64 = 0;
    for number in 0..JOURNALS {
        let path = path_in(rt.alloc(), folder, u64::from(number))?;
        bytes = bytes.saturating_add(fs::metadata(rt, path.as_str())?.len());
    }
    Ok(bytes)
}

/// How many bytes of memory the program has, where the system tells: the second number that it has of it is of pages.
pub fn memory_bytes<R: Files + AllocGlobal>(rt: &R) -> Option<u64> {
    let sizes = fs::read_to_string(rt, "/proc/self/statm").ok()?;
    let resident: u64 = sizes.split(' ').nth(1)?.parse().ok()?;
    resident.checked_mul(PAGE_BYTES)
}
