ghost use Rattle.std.specs.Prelude.{◌≡◌, ◌≤◌, List, length, IfOk};
ghost use Rattle.pay_day.specs.Words.{IsDay};
ghost use Rattle.pay_day.specs.declared.limits.TheConstants.{DAYS_PER_WEEK};
ghost use Rattle.pay_tables.specs.Words.{on};
ghost use Rattle.pay_rules.specs.declared.limits.TheConstants.{MOST_TOUCHES};
ghost use Rattle.pay_rules.specs.declared.journey.Journey.{Journey};
ghost use Rattle.pay_rules.specs.DayPrices.{capped_price};
ghost use Rattle.pay_rules.specs.Prices.{journeys_on, price_of_day, prices_of_journeys, prices_of_touches};
ghost use Rattle.pay_account.specs.WeekCells.{sums_of_week};

use crate::journeys::rail_journeys;
use crate::week_cells::{cells_of_week, cells_on};
use pay_day::{day_of_week, monday};
use pay_money::Pence;
use pay_rules::{Journey, Priced, Touch};
use pay_tables::Editions;
use pay_week::{Cells, day_price, week_price};
use std::alloc::{AllocError, Global};

/// The price of a service day, of all journeys, and the band that gives it.
pub fn price_on(editions: &Editions, journeys: &[Journey], day: u32) -> (Pence, Option<u8>)
    requires { length journeys.now ≤ MOST_TOUCHES }
    ensures price { result.0 ≡ price_of_day editions.now journeys.now day }
    ensures band { result.1 ≡ (capped_price (on editions.now day) (journeys_on journeys.now day)).1 }
{
    pay_week::day_laws::day_prices(editions);
    day_price(editions.on(day), &cells_on(editions, journeys, day))
}

/// The price of a service day and of its week through Sunday, by the sums of the fares of each day of that week.
pub fn price_by_sums(editions: &Editions, week: &[Cells], again: bool, day: u32) -> Priced
    requires is_day { IsDay day }
    requires whole { length week.now ≡ DAYS_PER_WEEK }
    ensures { (list : List Journey) → week.now ≡ sums_of_week editions.now list day → result ≡ prices_of_journeys editions.now list again day }
{
    pay_week::day_laws::day_prices(editions);
    pay_week::laws::week_prices(editions);
    let (day_price, _) = day_price(editions.on(day), &week[day_of_week(day) as usize]);
    Priced {
        again,
        day,
        day_price,
        week_price: week_price(editions, monday(day), week),
    }
}

/// The price of a service day and of its week through Sunday, of these touches in order.
#[tactic(auto, using(crate::proofs::Counts::both_kinds))]
pub fn price(
    alloc: Global,
    editions: &Editions,
    touches: &[Touch],
    again: bool,
    day: u32,
) -> Result<Priced, AllocError>
    requires few { length touches.now ≤ MOST_TOUCHES }
    requires is_day { IsDay day }
    ensures { IfOk result (λ p. p ≡ prices_of_touches editions.now touches.now again day) }
{
    let rail = rail_journeys(alloc, editions, touches)?;
    let week = cells_of_week(editions, &rail, touches, day);
    Ok(price_by_sums(editions, &week, again, day))
}
