ghost use Rattle.std.specs.Prelude.{◌≡◌};
ghost use Rattle.pay_fare_file.specs.declared.fault.FareFileFault.TheVariants.{Memory, NotToml};
ghost use Rattle.toml.specs.Errors.{IsMemory};

use std::alloc::{AllocError, AllocFailed};
use thiserror::Error;
use toml::de;

/// Why a fare file is refused: the first fault in the order of the keys.
#[derive(Clone, Copy, Debug, PartialEq, Eq, Error)]
pub enum FareFileFault {
    /// 10: the text is no TOML document.
    #[error("10 NotToml")]
    NotToml,
    /// 11: a key that must be there is missing, or a span within the zones has no single fare.
    #[error("11 MissingKey")]
    MissingKey,
    /// 12: a value has another form than its key wants: a text for an integer, say.
    #[error("12 WrongType")]
    WrongType,
    /// 13: a number is outside its range, the minutes are not one for each zone, or an interchange
    /// is from a place to itself.
    #[error("13 OutOfRange")]
    OutOfRange,
    /// 14: an item has the span, the cover, the day, the place or the two stations of an earlier one.
    #[error("14 Duplicate")]
    Duplicate,
    /// 15: an interchange names a place that is no station.
    #[error("15 UnknownPlace")]
    UnknownPlace,
    /// 16: an array has more items than its limit.
    #[error("16 TooMany")]
    TooMany,
    /// 17: the Hopper time of an edition is not that of the file's own rules.
    #[error("17 HopperDiffers")]
    HopperDiffers,
    /// 90: memory ran out. The file may be a good one.
    #[error("90 Memory")]
    Memory,
}

impl FareFileFault {
    ghost use Rattle.std.specs.Prelude.{◌≡◌};
    ghost use Rattle.pay_fare_file.specs.Fault.{fault_number, fault_name};

    /// The number that is printed for the refusal.
    pub fn number(self) -> u16
        ensures { result ≡ fault_number self }
    {
        match self {
            FareFileFault::NotToml => 10,
            FareFileFault::MissingKey => 11,
            FareFileFault::WrongType => 12,
            FareFileFault::OutOfRange => 13,
            FareFileFault::Duplicate => 14,
            FareFileFault::UnknownPlace => 15,
            FareFileFault::TooMany => 16,
            FareFileFault::HopperDiffers => 17,
            FareFileFault::Memory => 90,
        }
    }

    /// The name that is printed after the number.
    pub fn name(self) -> &'static str
        ensures { result.now ≡ fault_name self }
    {
        match self {
            FareFileFault::NotToml => "NotToml",
            FareFileFault::MissingKey => "MissingKey",
            FareFileFault::WrongType => "WrongType",
            FareFileFault::OutOfRange => "OutOfRange",
            FareFileFault::Duplicate => "Duplicate",
            FareFileFault::UnknownPlace => "UnknownPlace",
            FareFileFault::TooMany => "TooMany",
            FareFileFault::HopperDiffers => "HopperDiffers",
            FareFileFault::Memory => "Memory",
        }
    }
}

impl<T: Drop> From<AllocFailed<T>> for FareFileFault {
    ghost from_gives = { λ _ fault. fault ≡ Memory };

    fn from(_failed: AllocFailed<T>) -> FareFileFault {
        FareFileFault::Memory
    }
}

impl From<AllocError> for FareFileFault {
    ghost from_gives = { λ _ fault. fault ≡ Memory };

    fn from(_error: AllocError) -> FareFileFault {
        FareFileFault::Memory
    }
}

/// Out of memory, or else a text that is no document.
impl From<de::Error> for FareFileFault {
    ghost from_gives = { λ error fault. (IsMemory error → fault ≡ Memory) × (¬ IsMemory error → fault ≡ NotToml) };

    fn from(error: de::Error) -> FareFileFault {
        if error.is_memory() {
            FareFileFault::Memory
        } else {
            FareFileFault::NotToml
        }
    }
}
