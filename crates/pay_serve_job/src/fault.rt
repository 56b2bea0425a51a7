//! What ended a service, as the program tells it.
ghost use Rattle.pay_serve_job.specs.Service.{IsServeFault};

use pay_jobs::Fault;
use pay_serve::ServeFault;
use std::alloc::AllocError;

/// What ended a service, as the program tells it.
pub fn fault_of(why: ServeFault) -> Fault
    ensures { IsServeFault why result }
{
    match why {
        ServeFault::CannotListen => Fault::CannotListen,
        ServeFault::Count => Fault::Refused {
            number: 32,
            name: "Count",
        },
        ServeFault::NoThread => Fault::Refused {
            number: 35,
            name: "NoThread",
        },
        ServeFault::Memory => Fault::from(AllocError),
        ServeFault::JournalLine { journal, line, why } => {
            Fault::JournalLineOf { journal, line, why }
        }
        ServeFault::Journal => Fault::Journal,
        ServeFault::Output => Fault::Output,
    }
}
