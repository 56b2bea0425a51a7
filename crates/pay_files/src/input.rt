//! Files that are read, and standard input.

use crate::errors::memory_or;
use pay_fare_file::FareFileFault;
use pay_jobs::{Fault, FileFault};
use pay_log::{Level, Log};
use pay_warnings::warnings;
use pay_wire::Refusal;
use std::alloc::AllocError;
use std::fs;
use std::process::ExitCode;
use std::rt::Files;

/// The text of the fare file at this path.
pub fn fares_text<R: Files + AllocGlobal>(rt: &R, path: &str) -> Result<String, Fault> {
    match fs::read_to_string(rt, path) {
        Ok(fares) => Ok(fares),
        Err(error) => Err(memory_or(&error, Fault::File(FileFault::CannotReadFares))),
    }
}

/// The text of the old fare file at this path.
pub fn old_fares_text<R: Files + AllocGlobal>(rt: &R, path: &str) -> Result<String, Fault> {
    match fs::read_to_string(rt, path) {
        Ok(fares) => Ok(fares),
        Err(error) => Err(memory_or(&error, Fault::File(FileFault::CannotReadOldFares))),
    }
}

/// Prints the warnings of a fare file to standard error, a line for each. How many there are: none where it is refused.
pub fn print_warnings<R: Log + AllocGlobal>(rt: &R, fares: &str) -> Result<usize, Fault> {
    match warnings(rt.alloc(), fares) {
        Ok(warnings) => {
            for warning in &warnings {
                rt.say(Level::Warning, format_args!("farebox: warning: {warning}"));
            }
            Ok(warnings.len())
        }
        Err(FareFileFault::Memory) => Err(Fault::from(AllocError)),
        Err(_) => Ok(0),
    }
}

/// Whether standard input is a file. Its reader then shows many bytes at a time, and leaves in the file what is not
/// read, for whoever reads on; any other input it shows a byte at a time.
pub fn is_input_a_file<R: Files>(rt: &R) -> bool {
    fs::metadata(rt, "/dev/stdin").is_ok_and(|input| input.is_file())
}

/// Reports the line of a journal, by its path, that is not accepted. The status that the program then ends with.
pub fn report_line<R: Log>(rt: &R, path: &str, line: u64, why: Refusal) -> ExitCode {
    rt.say(
        Level::Error,
        format_args!("farebox: {path} line {line}: {why}"),
    );
    ExitCode::FAILURE
}
