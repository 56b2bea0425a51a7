//! Why a part of a fare file was not read, and where.
ghost use Rattle.std.specs.Prelude.{◌≡◌};
ghost use Rattle.pay_fare_file.specs.declared.misread.Misread.TheVariants.{Memory};
ghost use Rattle.pay_fare_file.specs.Spots.{told};

use crate::fault::FareFileFault;
use crate::spot::{FaultPlace, Spot};
use std::alloc::{AllocError, AllocFailed};

/// Why nothing was read. Memory may run out anywhere, and so has no place.
#[derive(Clone, Copy)]
pub enum Misread<P> {
    Memory,
    At(P, FareFileFault),
}

impl<P: Drop> Misread<P> {
    ghost use Rattle.std.specs.Prelude.{◌≡◌};
    ghost use Rattle.pay_fare_file.specs.Spots.{fault_of};

    /// The fault, without its place.
    pub fn fault(self) -> FareFileFault
        ensures { result ≡ fault_of self }
    {
        match self {
            Misread::Memory => FareFileFault::Memory,
            Misread::At(_, fault) => fault,
        }
    }
}

impl Misread<Spot> {
    ghost use Rattle.std.specs.Prelude.{◌≡◌};
    ghost use Rattle.pay_fare_file.specs.declared.spot.FaultPlace.TheVariants.{Own, OfEdition};
    ghost use Rattle.pay_fare_file.specs.Spots.{put};

    /// The same, among the file's own keys.
    pub fn in_own(self) -> Misread<FaultPlace>
        ensures { result ≡ put Own self }
    {
        match self {
            Misread::Memory => Misread::Memory,
            Misread::At(spot, fault) => Misread::At(FaultPlace::Own(spot), fault),
        }
    }

    /// The same, in the edition of a day.
    pub fn in_edition(self, day: u32) -> Misread<FaultPlace>
        ensures { result ≡ put (OfEdition day) self }
    {
        match self {
            Misread::Memory => Misread::Memory,
            Misread::At(spot, fault) => Misread::At(FaultPlace::OfEdition(day, spot), fault),
        }
    }
}

/// What a step found, its fault with its place.
pub fn told<T, P>(place: P, step: Result<T, FareFileFault>) -> Result<T, Misread<P>>
where
    P: Drop,
    ensures { result ≡ told place step }
{
    match step {
        Ok(found) => Ok(found),
        Err(fault) => Err(Misread::At(place, fault)),
    }
}

impl<T: Drop, P> From<AllocFailed<T>> for Misread<P> {
    ghost from_gives = { λ _ misread. misread ≡ Memory };

    fn from(_failed: AllocFailed<T>) -> Misread<P> {
        Misread::Memory
    }
}

impl<P> From<AllocError> for Misread<P> {
    ghost from_gives = { λ _ misread. misread ≡ Memory };

    fn from(_error: AllocError) -> Misread<P> {
        Misread::Memory
    }
}
