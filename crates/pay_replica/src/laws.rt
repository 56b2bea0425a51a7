//! What is true of all descriptions.
ghost use Rattle.pay_replica.specs.Laws.{DescriptionsTell};

/// A description tells the partition, how many there are, and the digests of the fare file and of the zone.
pub fn descriptions_tell()
    ensures { DescriptionsTell }
{}
