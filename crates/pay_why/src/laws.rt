//! What is true of reasons themselves.

ghost use Rattle.pay_why.specs.Laws.{ReasonsArePaying, FirstIsFirst, InstantsPay, InstantsTellTimes, ReasonsGiveBoardingFares};
ghost use Rattle.pay_why.specs.Laws.{PeakReasonsArePeak, ReasonsGiveRailFares, OnlyBoardingsHaveNone, StationLegsBySeconds, LateExitsAreLate, EarlyEntriesAreEarly};
ghost use Rattle.pay_why.specs.Laws.{JourneysHaveReasons, NeighboursAreBeside, LoneTapsAreNoLegs};
ghost use Rattle.pay_why.specs.CapLaws.{NamedBandsWin, NoneNamedIsLeast, ReasonsNameWinners, DayReasonsGivePrices, DaysAreSplit};
ghost use Rattle.pay_why.specs.CapLaws.{WeekReasonsGivePrices, WeeksAreSplit, DaySumsGiveReasons, WeekSumsGiveReasons};
ghost use Rattle.pay_why.specs.ListedLaws.{ListsHaveJourneys, ListsTellLines, ReasonsGiveListedFares, ListedFaresAddUp};
ghost use Rattle.pay_why.specs.DueLaws.{DueReasonsAreDue, CountedAreAll, CountedAreOfTheWeek};
ghost use Rattle.pay_why.specs.CorrectionLaws.{ReasonsAreStanding, ReasonsGiveEffective, DropsAreAccepted, VoidsAreStanding};

use pay_tables::Editions;

/// By its reason a boarding pays just when it pays by the Hopper rule. Only the first one has the reason
/// that it is the first. The instant of any other is that of the last boarding before it that pays: longer
/// ago than the Hopper time where it pays, and at most so long ago where it is free.
pub fn boarding_reasons()
    ensures paying { ReasonsArePaying }
    ensures first { FirstIsFirst }
    ensures instants { InstantsPay }
    ensures times { InstantsTellTimes }
{
    pay_hopper::laws::one_set();
    pay_hopper::laws::by_the_last();
    pay_hopper::laws::last_paid_by_marks();
}

/// The reason of a boarding gives the fare of its journey, by the tables of its service day.
pub fn boarding_fares()
    ensures { ReasonsGiveBoardingFares }
{
    boarding_reasons();
}

/// By its reason a journey is peak just when it is.
pub fn peak_reasons()
    ensures { PeakReasonsArePeak }
{}

/// The reason of a journey by rail gives its fare, by the tables of its service day, and only a boarding
/// has no such reason.
pub fn rail_fares()
    ensures fares { ReasonsGiveRailFares }
    ensures none { OnlyBoardingsHaveNone }
{
    peak_reasons();
}

/// The times that reasons tell: a leg at one station is free up to `same_free` seconds, a late exit came
/// more than the allowed seconds after the tap on the way in, and an early entry was as long before the
/// tap on the way out.
pub fn rail_times()
    ensures station { StationLegsBySeconds }
    ensures exits { LateExitsAreLate }
    ensures entries { EarlyEntriesAreEarly }
{}

/// Each journey by rail of an account has a reason, which gives its fare. What it says of a tap that
/// stands alone goes by the rail taps right before it and right after it, with neither of which it is a leg.
pub fn rail_places()
    ensures reasons { JourneysHaveReasons }
    ensures beside { NeighboursAreBeside }
    ensures alone { LoneTapsAreNoLegs }
{
    rail_fares();
    pay_links::laws::one_division();
    pay_links::laws::each_tap();
    pay_pairs::laws::one_parting();
}

/// A day lists the journeys of the account that are of that day, each at its place among all, in the order of
/// their first taps: with the instants and the fares that `SHOW` tells, in its order. The reason of the
/// journey at the place gives the fare. Together the fares are what the day comes to without a cap, and its
/// maximum fares.
pub fn day_lists()
    ensures journeys { ListsHaveJourneys }
    ensures lines { ListsTellLines }
    ensures reasons { ReasonsGiveListedFares }
    ensures sum { ListedFaresAddUp }
{
    boarding_fares();
    rail_places();
}

/// The band that a reason of a day or a week names is the one whose offer wins: no other band offers less,
/// and none that stands before it offers as little. Where it names none, no band offers less than what all
/// comes to. The price is that offer and the maximum fares.
pub fn winners()
    ensures named { NamedBandsWin }
    ensures none { NoneNamedIsLeast }
    ensures winner { ReasonsNameWinners }
{}

/// The reason of a day gives its price and the band that statements name. What is inside of that band and
/// what is outside are all fares but the maximum fares, and its cap is below what is inside.
pub fn day_reasons()
    ensures prices { DayReasonsGivePrices }
    ensures split { DaysAreSplit }
{
    winners();
}

/// The reason of a week gives its price, and is split in the same way.
pub fn week_reasons()
    ensures prices { WeekReasonsGivePrices }
    ensures split { WeeksAreSplit }
{
    winners();
    pay_caps::laws::bounds();
}

/// The sums of the fares of a day's or of a week's journeys give the reason of these, by the tables of each
/// day.
pub fn reasons_by_sums(editions: &Editions)
    ensures day { DaySumsGiveReasons editions.now }
    ensures week { WeekSumsGiveReasons editions.now }
{
    pay_caps::laws::day_prices(editions);
    pay_caps::laws::sums_outside();
    pay_caps::laws::charges();
}

/// The reason of what is due of a week through a day gives that, by the week's price. The Credits that count
/// are all that is taken off, and each of them stands and is of a day from Monday through that day.
pub fn dues()
    ensures due { DueReasonsAreDue }
    ensures all { CountedAreAll }
    ensures of_the_week { CountedAreOfTheWeek }
{}

/// By their reasons corrections stand and taps count just when they do, so these give the effective taps.
/// The Drop or the Void that a reason names is accepted and names it, and the Void stands.
pub fn corrections()
    ensures standing { ReasonsAreStanding }
    ensures effective { ReasonsGiveEffective }
    ensures drops { DropsAreAccepted }
    ensures voids { VoidsAreStanding }
{}
