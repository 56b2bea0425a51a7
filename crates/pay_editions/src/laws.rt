//! What is true of every fare file.
ghost use Rattle.std.specs.Prelude.{◌≡◌};
ghost use Rattle.toml.specs.Data.{Members};
ghost use Rattle.pay_fare_file.specs.Spots.{untold};
ghost use Rattle.pay_fare_file.specs.FareFile.{fare_file};
ghost use Rattle.pay_fare_file.specs.FaultPlaces.{fare_file_told};

/// Does nothing: what it tells is that without its places the reading that tells them is the reading of a fare
/// file. So a place that is told is that of the fault that is given.
#[tactic(auto, using(crate::proofs::Forgetting::fare_file_untold))]
pub fn places_of_faults()
    ensures { (ms : Members) → untold (fare_file_told ms) ≡ fare_file ms }
{}
