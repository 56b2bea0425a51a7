//! What agreement of fare files means for the accounts. Each law is the contract of a function that does nothing: a
//! caller whose proof needs a law calls its function.
ghost use Rattle.std.specs.Prelude.{◌≡◌, ◌≤◌, ℕ, []};
ghost use Rattle.pay_day.specs.declared.limits.TheConstants.{FIRST_DAY};
ghost use Rattle.pay_tables.specs.Words.{FareEditions};
ghost use Rattle.pay_rules.specs.Accepted.{Accepted};
ghost use Rattle.pay_compare.specs.Agreement.{AgreeThrough};
ghost use Rattle.pay_compare.specs.Differences.{IsDifference};
ghost use Rattle.pay_compare.specs.OneEdition.{IsOfOneEdition};
ghost use Rattle.pay_compare.specs.Laws.{AreTouchesWithin, ComesToTheSame};

use crate::key::Key;
use pay_tables::Editions;
use pay_tables::laws::{each_day, editions_share, spans_within};

/// Where a fare file agrees with an old one on each day up to the last of an account's effective taps, all at places that
/// the old one knows, the account comes to the same by both: its journeys, the price of each day and of each week, what it
/// shows, its statements and its quotes, but for the edition that these name where editions begin on other days.
pub fn agreement(new: &Editions, old: &Editions)
    ensures { (last : ℕ) (accepted : Accepted) → AgreeThrough new.now old.now last → AreTouchesWithin old.now last accepted
        → ComesToTheSame new.now old.now accepted }
{
    editions_share(new);
    editions_share(old);
    each_day(old);
    spans_within();
}

/// A fare file without editions prices by its own keys, as if there were no editions: legs, journeys, days, weeks, lines and
/// what each operator carried.
pub fn without_editions()
    ensures { (editions : FareEditions) → editions.items ≡ [] → IsOfOneEdition editions }
{}

/// A difference on a day is one: the two files do not agree through it.
pub fn difference()
    ensures { (new old : FareEditions) (day : ℕ) (key : Key) → FIRST_DAY ≤ day → IsDifference new old day key → ¬ AgreeThrough new old day }
{}
