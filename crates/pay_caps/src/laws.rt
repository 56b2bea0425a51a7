//! What is true of sums and prices themselves. Each law is the contract of a function that does nothing:
//! a caller whose proof needs a law calls its function.
ghost use Rattle.std.specs.Prelude.{◌≡◌, ◌≤◌, ℕ, ◌∷◌, ◌++◌, [], List, length, IsPermutation};
ghost use Rattle.pay_tables.specs.declared.band.Band.{Band};
ghost use Rattle.pay_tables.specs.declared.limits.TheConstants.{MOST_ZONES};
ghost use Rattle.pay_tables.specs.Words.{FareTables, on};
ghost use Rattle.pay_rules.specs.declared.journey.Journey.{Journey};
ghost use Rattle.pay_rules.specs.JourneyFares.{fare};
ghost use Rattle.pay_caps.specs.declared.cell.Cell.{Cell};
ghost use Rattle.pay_caps.specs.declared.limits.TheConstants.{SPANS};
ghost use Rattle.pay_caps.specs.CellSums.{CellSums};
ghost use Rattle.pay_caps.specs.CellOf.{cell_of, IsCell};
ghost use Rattle.pay_caps.specs.Cells.{no_fares, added, taken, sum_at, cells_of, outside, total};
ghost use Rattle.pay_rules.specs.Lowest.{charged};
ghost use Rattle.pay_rules.specs.DayPrices.{fares, not_covered, capped_price, maximum_fares, day_price};
ghost use Rattle.pay_caps.specs.SumPrices.{capped_price_of, day_price_of};
ghost use Rattle.pay_caps.specs.Laws.{OthersAreLeft, StretchIsTaken, RestIsLeft, EachFareIsThere, StretchIsAdded, DayIsWithinBand, ChargeIsWithinBand};

use pay_tables::Editions;

/// The sums of journeys are made by adding the fare of each, whatever the order, and what was added can
/// be taken away.
pub fn sums()
    ensures none { (tables : FareTables) → cells_of tables [] ≡ no_fares }
    ensures one_more { (tables : FareTables) (journey : Journey) (list : List Journey) →
        cells_of tables (journey ∷ list) ≡ added (cell_of tables journey) (fare tables journey) (cells_of tables list) }
    ensures one_after { (tables : FareTables) (journey : Journey) (list : List Journey) →
        cells_of tables (list ++ journey ∷ []) ≡ added (cell_of tables journey) (fare tables journey) (cells_of tables list) }
    ensures in_any_order { (tables : FareTables) (list other : List Journey) → IsPermutation list other → cells_of tables list ≡ cells_of tables other }
    ensures taken_again { (cell : Cell) (pence : ℕ) (sums : CellSums) → length sums.spans ≡ SPANS → taken cell pence (added cell pence sums) ≡ sums }
{}

/// The fare of each of some journeys is in their sums, and what is left when it is taken are the sums of the
/// others, by the tables of each day.
pub fn takes(editions: &Editions)
    ensures there { (day : ℕ) (before : List Journey) (journey : Journey) (after : List Journey) →
        fare (on editions.now day) journey ≤ sum_at (cell_of (on editions.now day) journey) (cells_of (on editions.now day) (before ++ journey ∷ after)) }
    ensures left { (day : ℕ) → OthersAreLeft (on editions.now day) }
{
    day_prices(editions);
}

/// The fares of a stretch of journeys can be taken from the sums of all, one after another, which leaves
/// the sums of the others, and added to these again. It does not matter where the stretch stands.
pub fn stretches(editions: &Editions)
    ensures others_left { (day : ℕ) → StretchIsTaken (on editions.now day) }
    ensures rest_left { (day : ℕ) → RestIsLeft (on editions.now day) }
    ensures there { (day : ℕ) → EachFareIsThere (on editions.now day) }
    ensures all_again { (day : ℕ) → StretchIsAdded (on editions.now day) }
{
    takes(editions);
}

/// What a band leaves outside of the sums of journeys are the sums of those that it does not cover.
pub fn sums_outside()
    ensures { (tables : FareTables) (band : Band) (list : List Journey) → cells_of tables (not_covered tables band list) ≡ outside band.cover (cells_of tables list) }
{}

/// The price of the sums of a day's journeys is the price of the journeys, by the tables of each day.
pub fn day_prices(editions: &Editions)
    ensures in_range { (day : ℕ) (journey : Journey) → IsCell MOST_ZONES (cell_of (on editions.now day) journey) }
    ensures capped { (day : ℕ) (list : List Journey) → capped_price_of (on editions.now day) (cells_of (on editions.now day) list) ≡ capped_price (on editions.now day) list }
    ensures day { (day : ℕ) (list : List Journey) → day_price_of (on editions.now day) (cells_of (on editions.now day) list) ≡ day_price (on editions.now day) list }
    ensures maximum { (day : ℕ) (list : List Journey) → (cells_of (on editions.now day) list).maximum ≡ maximum_fares (on editions.now day) list }
    ensures all { (day : ℕ) (list : List Journey) → total (cells_of (on editions.now day) list) ≡ fares (on editions.now day) list }
{
    pay_tables::laws::each_day(editions);
    pay_fares::laws::spans_within(editions);
}

/// A day never costs more than its fares, nor more than what a band caps and leaves outside; and a
/// journey more never makes it cheaper.
pub fn bounds()
    ensures by_fares { (tables : FareTables) (list : List Journey) → day_price tables list ≤ fares tables list }
    ensures by_band { DayIsWithinBand }
    ensures grows { (tables : FareTables) (before : List Journey) (journey : Journey) (after : List Journey) →
        day_price tables (before ++ after) ≤ day_price tables (before ++ journey ∷ after) }
    ensures capped_grows { (tables : FareTables) (before : List Journey) (journey : Journey) (after : List Journey) →
        (capped_price tables (before ++ after)).0 ≤ (capped_price tables (before ++ journey ∷ after)).0 }
    ensures maximum_grows { (tables : FareTables) (before : List Journey) (journey : Journey) (after : List Journey) →
        maximum_fares tables (before ++ after) ≤ maximum_fares tables (before ++ journey ∷ after) }
{}

/// What is charged where all costs so much, and each band has a cap and leaves so much outside: no more
/// than all, and no more than by any band; the same where each leaves the same outside, and no less where
/// each leaves more.
pub fn charges()
    ensures by_all { (cap : Band → ℕ) (all : ℕ) (outside : Band → ℕ) (bands : List Band) → (charged cap all outside bands).0 ≤ all }
    ensures by_band { ChargeIsWithinBand }
    ensures same { (cap : Band → ℕ) (all other : ℕ) (f g : Band → ℕ) (bands : List Band) → all ≡ other → ((band : Band) → f band ≡ g band) →
        charged cap all f bands ≡ charged cap other g bands }
    ensures grows { (cap : Band → ℕ) (all other : ℕ) (f g : Band → ℕ) (bands : List Band) → all ≤ other → ((band : Band) → f band ≤ g band) →
        (charged cap all f bands).0 ≤ (charged cap other g bands).0 }
{}
