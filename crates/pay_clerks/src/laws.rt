//! What is true of all clerks, and of everyone who is found.
ghost use Rattle.pay_clerks.specs.Laws.{FoundByBoth, NumbersDiffer, StrangersAreNobody};

/// A clerk is found by the own number and the own secret alone, and a secret that is no clerk's finds nobody.
pub fn found_by_both()
    ensures both { FoundByBoth }
    ensures strangers { StrangersAreNobody }
{}

/// No two clerks of a file have one number.
pub fn numbers_differ()
    ensures { NumbersDiffer }
{}
