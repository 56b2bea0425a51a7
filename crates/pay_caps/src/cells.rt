ghost use Rattle.std.specs.Prelude.{Bool, ◌≡◌, ◌≤◌, ◌<◌, ◌+◌, ◌-◌, ◌&&◌, not, if◌then◌else◌, length, max, sum, slice_get, slice_index};
ghost use Rattle.pay_tables.specs.declared.limits.TheConstants.{MOST_ZONES};
ghost use Rattle.pay_caps.specs.declared.limits.TheConstants.{SPANS};
ghost use Rattle.pay_money.specs.declared.limits.TheConstants.{MOST_MONEY};
ghost use Rattle.pay_tables.specs.Words.{IsSpan, covers_span};
ghost use Rattle.pay_tables.specs.declared.zones.Span.{Span};
ghost use Rattle.pay_caps.specs.CellOf.{IsCell};
ghost use Rattle.pay_caps.specs.Cells.{span_at, used_of, no_fares, added, taken, sum_at, total, capped_sum, sum_where, outside_sum, spans_outside, outside, outside_of};

use crate::cell::Cell;
use crate::limits::SPANS;
use pay_money::Pence;
use pay_tables::{Cover, Span, Tables};
use std::marker::Model;

/// The fares of a day's journeys in sums: one for each span of zones, one for the boardings, and one for
/// the maximum fares. In a contract they are a record of these.
///
/// All together they are no more than `MOST_MONEY`, so each fits in 32 bits.
#[derive(Clone, Copy)]
pub struct Cells {
    spans: [u32; SPANS],
    buses: u32,
    maximum: u32,
    /// How many sums of spans there are up to the last one that is not 0: a walk over them ends there.
    used: u8,
}

impl Model for Cells {
    ghost use Rattle.pay_caps.specs.CellSums.{CellSums, sums_code};
    ghost use Rattle.pay_caps.specs.Cells.{AreSums, used_of};
    ghost use Rattle.std.proofs.Common.{ap, sym, ℕ};

    ghost Value = { CellSums };

    ghost coded = { sums_code };

    ghost view = { λ c. record { spans = c.spans; buses = c.buses; maximum = c.maximum } };

    ghost inverse = { λ s. record { spans = s.spans; buses = s.buses; maximum = s.maximum; used = used_of s.spans } };

    ghost inverse_ok = { λ a h. ap (λ (used : ℕ). record { spans = a.spans; buses = a.buses; maximum = a.maximum; used = used }) (sym h.walked) };

    ghost invariant = { λ c. AreSums (record { spans = c.spans; buses = c.buses; maximum = c.maximum }) c.used };
}

/// All spans within nine zones, by their last zone and then by their first.
const ALL_SPANS: [Span; SPANS] = [
    Span { from: 1, to: 1 },
    Span { from: 1, to: 2 },
    Span { from: 2, to: 2 },
    Span { from: 1, to: 3 },
    Span { from: 2, to: 3 },
    Span { from: 3, to: 3 },
    Span { from: 1, to: 4 },
    Span { from: 2, to: 4 },
    Span { from: 3, to: 4 },
    Span { from: 4, to: 4 },
    Span { from: 1, to: 5 },
    Span { from: 2, to: 5 },
    Span { from: 3, to: 5 },
    Span { from: 4, to: 5 },
    Span { from: 5, to: 5 },
    Span { from: 1, to: 6 },
    Span { from: 2, to: 6 },
    Span { from: 3, to: 6 },
    Span { from: 4, to: 6 },
    Span { from: 5, to: 6 },
    Span { from: 6, to: 6 },
    Span { from: 1, to: 7 },
    Span { from: 2, to: 7 },
    Span { from: 3, to: 7 },
    Span { from: 4, to: 7 },
    Span { from: 5, to: 7 },
    Span { from: 6, to: 7 },
    Span { from: 7, to: 7 },
    Span { from: 1, to: 8 },
    Span { from: 2, to: 8 },
    Span { from: 3, to: 8 },
    Span { from: 4, to: 8 },
    Span { from: 5, to: 8 },
    Span { from: 6, to: 8 },
    Span { from: 7, to: 8 },
    Span { from: 8, to: 8 },
    Span { from: 1, to: 9 },
    Span { from: 2, to: 9 },
    Span { from: 3, to: 9 },
    Span { from: 4, to: 9 },
    Span { from: 5, to: 9 },
    Span { from: 6, to: 9 },
    Span { from: 7, to: 9 },
    Span { from: 8, to: 9 },
    Span { from: 9, to: 9 },
];

/// Where the sum of a span stands: the spans are ordered by their last zone, and then by their first.
#[tactic(auto, using(crate::proofs::AllSpans::stands_at_place))]
fn place_of(span: Span) -> usize
    requires { IsSpan MOST_ZONES span }
    ensures stands { span_at result ≡ span }
    ensures in_range { result < SPANS }
{
    let from = usize::from(span.from);
    let to = usize::from(span.to);
    to * (to - 1) / 2 + from - 1
}

/// A sum as money.
fn pence(sum: u32) -> Pence
    ensures { result ≡ sum }
{
    Pence::new(u64::from(sum))
}

/// A sum and a fare more.
fn more(sum: u32, fare: Pence) -> u32
    requires { sum + fare ≤ MOST_MONEY }
    ensures { result ≡ sum + fare }
{
    sum + fare.pence() as u32
}

/// A sum less a fare that is in it.
fn less(sum: u32, fare: Pence) -> u32
    requires { fare ≤ sum }
    ensures { result ≡ sum - fare }
{
    sum - fare.pence() as u32
}

impl Default for Cells {
    ghost is_default = { λ cells. cells ≡ no_fares };

    fn default() -> Cells {
        Cells::new()
    }
}

impl Cells {
    /// No fares.
    pub fn new() -> Cells
        ensures { result ≡ no_fares }
    {
        Cells {
            spans: [0; SPANS],
            buses: 0,
            maximum: 0,
            used: 0,
        }
    }

    /// One fare more.
    pub fn add(&mut self, cell: Cell, fare: Pence)
        requires is_cell { IsCell MOST_ZONES cell }
        requires fits { total self.old + fare ≤ MOST_MONEY }
        ensures value { self.new ≡ added cell fare self.old }
        ensures sum { total self.new ≡ total self.old + fare }
        ensures there { sum_at cell self.new ≡ sum_at cell self.old + fare }
    {
        match cell {
            Cell::Rail(span) => {
                let place = place_of(span);
                self.spans[place] = more(self.spans[place], fare);
                self.used = used_with(&self.spans, self.used, place);
            }
            Cell::Buses => self.buses = more(self.buses, fare),
            Cell::Maximum => self.maximum = more(self.maximum, fare),
        }
    }

    /// One fare less, of those that are there.
    pub fn take(&mut self, cell: Cell, fare: Pence)
        requires is_cell { IsCell MOST_ZONES cell }
        requires there { fare ≤ sum_at cell self.old }
        ensures value { self.new ≡ taken cell fare self.old }
        ensures sum { total self.old ≡ total self.new + fare }
        ensures there { sum_at cell self.old ≡ sum_at cell self.new + fare }
    {
        match cell {
            Cell::Rail(span) => {
                let place = place_of(span);
                self.spans[place] = less(self.spans[place], fare);
                self.used = used_with(&self.spans, self.used, place);
            }
            Cell::Buses => self.buses = less(self.buses, fare),
            Cell::Maximum => self.maximum = less(self.maximum, fare),
        }
    }

    /// The sum of all fares but the maximum fares.
    pub fn capped_sum(&self) -> Pence
        ensures value { result ≡ capped_sum self.now }
        ensures in_range { result + self.now.maximum ≤ MOST_MONEY }
    {
        pence(self.buses + sum_of(self.used_spans()))
    }

    /// The sum of the maximum fares.
    pub fn maximum(&self) -> Pence
        ensures value { result ≡ self.now.maximum }
        ensures in_range { result ≤ MOST_MONEY }
    {
        pence(self.maximum)
    }

    /// The sum of the fares that a band leaves outside, without the maximum fares.
    pub fn outside_sum(&self, cover: Cover) -> Pence
        ensures value { result ≡ outside_sum cover self.now }
        ensures in_range { result ≤ MOST_MONEY }
    {
        pence(sum_outside(self.used_spans(), cover))
    }

    /// The sum of the fares that two bands leave outside, without the maximum fares.
    pub fn outside_both_sum(&self, first: Cover, second: Cover) -> Pence
        ensures value { result ≡ outside_sum second (outside first self.now) }
        ensures in_range { result ≤ MOST_MONEY }
    {
        pence(sum_outside_both(self.used_spans(), first, second))
    }

    /// The fares that a band leaves outside, with the maximum fares. The band is told by its place in the
    /// fare file; where none stands there, all fares are outside.
    pub fn outside(&self, tables: &Tables, band: u8) -> Cells
        ensures { result ≡ outside_of (slice_get tables.now.bands band) self.now }
    {
        match tables.bands().get(usize::from(band)) {
            Some(band) => self.outside_of(band.cover),
            None => *self,
        }
    }

    /// The sums of spans through the last one that is not 0.
    #[tactic(auto, using(crate::proofs::Used::used_is_few))]
    fn used_spans(&self) -> &[u32]
        ensures few { length result.now ≤ SPANS }
        ensures fits { sum result.now + self.now.buses + self.now.maximum ≤ MOST_MONEY }
        ensures all { sum result.now ≡ sum self.now.spans }
        ensures each { (counts : Span → Bool) → sum_where counts result.now ≡ sum_where counts self.now.spans }
    {
        &self.spans[..usize::from(self.used)]
    }

    fn outside_of(&self, cover: Cover) -> Cells
        ensures { result ≡ outside cover self.now }
    {
        let spans = spans_outside(self.spans, cover);
        Cells {
            spans,
            buses: 0,
            maximum: self.maximum,
            used: used_to(&spans, SPANS),
        }
    }
}

/// How many sums there are up to the last one that is not 0. It is at most so many.
fn used_to(spans: &[u32; SPANS], most: usize) -> u8
    requires in_most { used_of spans.now ≤ most }
    requires in_range { most ≤ SPANS }
    ensures { result ≡ used_of spans.now }
{
    let mut used = most;
    while used > 0 {
        if spans[used - 1] != 0 {
            return used as u8;
        }
        used -= 1;
    }
    0
}

/// The same where one of the sums was changed: so many were in use before.
fn used_with(spans: &[u32; SPANS], used: u8, place: usize) -> u8
    requires is_place { place < SPANS }
    requires in_range { used ≤ SPANS }
    requires before { used_of spans.now ≤ max used (place + 1) }
    ensures { result ≡ used_of spans.now }
{
    used_to(spans, usize::from(used).max(place + 1))
}

/// The sum of some sums.
fn sum_of(spans: &[u32]) -> u32
    requires { sum spans.now ≤ MOST_MONEY }
    ensures { result ≡ sum spans.now }
{
    let mut total = 0;
    for fare in spans {
        total += *fare;
    }
    total
}

/// The sum of a span, if it is not covered, and else nothing.
fn outside_at(spans: &[u32], cover: Cover, place: usize) -> u32
    requires is_place { place < length spans.now }
    requires few { length spans.now ≤ SPANS }
    ensures { result ≡ (if covers_span cover (span_at place) then 0 else slice_index spans.now place) }
{
    if cover.covers(ALL_SPANS[place]) {
        return 0;
    }
    spans[place]
}

/// The sum of the spans that are not covered.
fn sum_outside(spans: &[u32], cover: Cover) -> u32
    requires few { length spans.now ≤ SPANS }
    requires fits { sum spans.now ≤ MOST_MONEY }
    ensures value { result ≡ sum_where (λ span. not (covers_span cover span)) spans.now }
    ensures in_range { result ≤ MOST_MONEY }
{
    let mut total = 0;
    for place in 0..spans.len() {
        total += outside_at(spans, cover, place);
    }
    total
}

/// The sum of a span, if neither of two bands covers it, and else nothing.
fn outside_both_at(spans: &[u32], first: Cover, second: Cover, place: usize) -> u32
    requires is_place { place < length spans.now }
    requires few { length spans.now ≤ SPANS }
    ensures { result ≡ (if covers_span first (span_at place) then 0 else if covers_span second (span_at place) then 0 else slice_index spans.now place) }
{
    if first.covers(ALL_SPANS[place]) {
        return 0;
    }
    outside_at(spans, second, place)
}

/// The sum of the spans that neither of two bands covers.
fn sum_outside_both(spans: &[u32], first: Cover, second: Cover) -> u32
    requires few { length spans.now ≤ SPANS }
    requires fits { sum spans.now ≤ MOST_MONEY }
    ensures value { result ≡ sum_where (λ span. not (covers_span first span) && not (covers_span second span)) spans.now }
    ensures in_range { result ≤ MOST_MONEY }
{
    let mut total = 0;
    for place in 0..spans.len() {
        total += outside_both_at(spans, first, second, place);
    }
    total
}

/// The sums of spans, without those that are covered.
fn spans_outside(mut spans: [u32; SPANS], cover: Cover) -> [u32; SPANS]
    ensures { result ≡ spans_outside cover spans }
{
    for place in 0..SPANS {
        spans[place] = outside_at(&spans, cover, place);
    }
    spans
}
