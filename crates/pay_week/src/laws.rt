//! What is true of the prices of weeks themselves. Each law is the contract of a function that does
//! nothing: a caller whose proof needs a law calls its function.
ghost use Rattle.std.specs.Prelude.{◌≡◌, ℕ, ◌≤◌, [], List, sum_by};
ghost use Rattle.pay_tables.specs.Words.{FareEditions, on};
ghost use Rattle.pay_rules.specs.DayPrices.{day_price};
ghost use Rattle.pay_rules.specs.WeekPrices.{DayJourneys, week_price};
ghost use Rattle.pay_week.specs.WeekSumPrices.{sums_of_days, week_price_of};
ghost use Rattle.pay_week.specs.Laws.{WeekIsWithinBand, WeekGrows, EmptyDayIsFree};

use pay_tables::Editions;

/// The price of the sums of the days' journeys is the price of the journeys.
pub fn week_prices(editions: &Editions)
    ensures { (monday : ℕ) (days : List DayJourneys) →
        week_price_of editions.now monday (sums_of_days editions.now days) ≡ week_price editions.now monday days }
{
    pay_caps::laws::day_prices(editions);
    pay_caps::laws::sums_outside();
    pay_caps::laws::charges();
}

/// A week never costs more than its days, nor more than what a band of its Monday caps and leaves outside;
/// and a journey more never makes it cheaper.
pub fn bounds()
    ensures by_days { (editions : FareEditions) (monday : ℕ) (days : List DayJourneys) →
        week_price editions monday days ≤ sum_by (λ (one : DayJourneys). day_price (on editions one.0) one.1) days }
    ensures by_band { WeekIsWithinBand }
    ensures grows { WeekGrows }
{
    pay_caps::laws::charges();
    pay_caps::laws::bounds();
}

/// Days without journeys may be left out of a week, and a week of no days costs nothing.
pub fn empty_days()
    ensures free { EmptyDayIsFree }
    ensures nothing { (editions : FareEditions) (monday : ℕ) → week_price editions monday [] ≡ 0 }
{
    pay_caps::laws::charges();
}
