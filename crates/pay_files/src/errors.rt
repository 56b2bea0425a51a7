//! Errors of the system, as the program tells them.
ghost use Rattle.std.specs.Prelude.{◌≡◌, ◌≢◌};
ghost use Rattle.std.specs.IoError.{error_kind};
ghost use Rattle.pay_jobs.specs.Words.{IsWantOfMemory};

use pay_jobs::Fault;
use std::alloc::AllocError;
use std::io;
use std::io::ErrorKind;

/// Out of memory, or else the fault that is at hand.
pub fn memory_or(error: &io::Error, fault: Fault) -> Fault
    ensures memory { error_kind error.now ≡ ErrorKind.OutOfMemory → IsWantOfMemory result }
    ensures other { error_kind error.now ≢ ErrorKind.OutOfMemory → result ≡ fault }
{
    if error.kind() == ErrorKind::OutOfMemory {
        Fault::from(AllocError)
    } else {
        fault
    }
}
