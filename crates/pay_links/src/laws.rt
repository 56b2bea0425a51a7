//! What is true of journeys themselves.

ghost use Rattle.std.specs.Prelude.{◌≡◌, List};
ghost use Rattle.pay_tables.specs.Words.{FareTables};
ghost use Rattle.pay_rules.specs.declared.parts.RailPart.{RailPart};
ghost use Rattle.pay_rules.specs.declared.journey.Journey.{Journey};
ghost use Rattle.pay_rules.specs.RailJourneys.{AreJourneys, journeys};
ghost use Rattle.pay_links.specs.Laws.{StartsAreLocal, AsManyMarksAsTaps, JourneysHaveEachTap, JourneysAreKeptAsMarks, MarksAreCut, JourneysAreCut};

/// Any legs and lone taps are journeys in one way, and in no other.
pub fn one_division()
    ensures there { (tables : FareTables) (parts : List RailPart) → AreJourneys tables parts (journeys tables parts) }
    ensures one { (tables : FareTables) (parts : List RailPart) (list others : List Journey) →
        AreJourneys tables parts list → AreJourneys tables parts others → list ≡ others }
{}

/// The taps right next to each one decide whether a journey starts there.
pub fn starts_are_local()
    ensures local { StartsAreLocal }
    ensures as_many { AsManyMarksAsTaps }
{
    pay_pairs::laws::one_leg_each();
}

/// No tap is lost among journeys, and none is in two.
pub fn each_tap()
    ensures { JourneysHaveEachTap }
{
    pay_pairs::laws::one_parting();
}

/// Taps, and a mark beside each where a journey starts, are enough to read the journeys back.
pub fn kept_as_marks()
    ensures { JourneysAreKeptAsMarks }
{
    starts_are_local();
    each_tap();
}

/// Where a journey starts, the taps may be cut: marks and journeys before it, and from it on, are those
/// of the taps there by themselves.
pub fn cut()
    ensures marks { MarksAreCut }
    ensures journeys { JourneysAreCut }
{
    kept_as_marks();
}
