//! Why an answer gives nothing.
use std::alloc::AllocError;
use thiserror::Error;

/// Why an answer gives nothing.
#[derive(Clone, Copy, Debug, PartialEq, Eq, Error)]
pub enum ApiFault {
    /// It is no UTF-8, no JSON, or has not what such an answer has.
    #[error("the answer is not understood")]
    NotUnderstood,
    /// It is a refusal: `code` is the `err_code` of its error, as 10059 where there is no such stream, and 0 where it has none.
    #[error("the server refuses this, by error {code}")]
    Refused { code: u64 },
    /// Memory to read it was refused.
    #[error("no memory")]
    Memory,
}

impl From<AllocError> for ApiFault {
    ghost use Rattle.std.specs.Prelude.{◌≡◌};
    ghost use Rattle.pay_jetstream_api.specs.declared.fault.ApiFault.TheVariants.{Memory};

    ghost from_gives = { λ _ fault. fault ≡ Memory };

    fn from(_: AllocError) -> ApiFault {
        ApiFault::Memory
    }
}
