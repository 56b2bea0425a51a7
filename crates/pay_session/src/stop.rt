//! Why a session stops before its end.
ghost use Rattle.std.specs.Prelude.{◌≡◌, ◌≢◌, ◌↔◌, IsOk, IfErr, OnErr};
ghost use Rattle.std.specs.IoError.{error_kind};
ghost use Rattle.pay_session.specs.Stops.{fault_of};

use pay_wire::WriteFault;
use std::io;
use std::io::ErrorKind;
use thiserror::Error;

/// What broke a session off. `answered` counts the replies that were written and flushed before.
#[derive(Clone, Copy, Debug, PartialEq, Eq, Error)]
pub enum SessionFault {
    /// The reader failed, or its buffer was filled [`MOST_FILLS`](crate::limits::MOST_FILLS) times without an end.
    #[error("input fault")]
    Read { answered: u128 },
    /// The writer failed. Of the next reply it may hold a front.
    #[error("output fault")]
    Write { answered: u128 },
}

/// Why a session stops before its end.
#[derive(Clone, Copy)]
pub enum Stop {
    /// The reader failed in this way.
    Read(ErrorKind),
    /// The reader's buffer was filled as often as it may be, without an end.
    NoMoreFills,
    /// The writer failed.
    Write(WriteFault),
}

impl Stop {
    /// What is told of a session that stopped after so many replies.
    pub fn after(self, answered: u128) -> SessionFault
        ensures { result ≡ fault_of self answered }
    {
        match self {
            Stop::Read(_) | Stop::NoMoreFills => SessionFault::Read { answered },
            Stop::Write(_) => SessionFault::Write { answered },
        }
    }
}

/// What a reader's error comes to: a reader that was interrupted is asked again, and any other has failed.
pub fn unless_interrupted(error: &io::Error) -> Result<(), Stop>
    ensures interrupted { IsOk result ↔ (error_kind error.now ≡ ErrorKind.Interrupted) }
    ensures failed { IfErr result (λ stop. stop ≡ Stop.Read (error_kind error.now)) }
    ensures other { OnErr result (error_kind error.now ≢ ErrorKind.Interrupted) }
{
    let kind = error.kind();
    if kind == ErrorKind::Interrupted {
        Ok(())
    } else {
        Err(Stop::Read(kind))
    }
}
