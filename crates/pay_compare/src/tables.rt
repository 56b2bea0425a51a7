//! What an edition says of a day: whether it prices the day as an older file's does.
ghost use Rattle.std.specs.Prelude.{◌≡◌, ◌≢◌, ◌↔◌, ◌≤◌, ℕ, Bool, IfSome, IsTrue, None};
ghost use Rattle.std.specs.List.{list_all, zip};
ghost use Rattle.pay_tables.specs.declared.zones.Span.{Span};
ghost use Rattle.pay_tables.specs.declared.rules.Rules.{Rules};
ghost use Rattle.pay_tables.specs.Words.{IsSpan, allowed_seconds, single_fare};
ghost use Rattle.pay_compare.specs.Agreement.{PriceAlike, SinglesAlikeFrom};
ghost use Rattle.pay_compare.specs.Bands.{same_band};
ghost use Rattle.pay_compare.specs.Differences.{DayDiffers, MinutesDiffer, RulesDiffer, SinglesDiffer};

use crate::key::Key;
use pay_tables::{Band, Rules, Span, Tables};

/// A key by which tables price a day otherwise than old ones of the same Hopper time do.
pub fn day_difference(new: &Tables, old: &Tables, day: u32) -> Option<Key>
    requires zones { old.now.zones ≤ new.now.zones }
    requires hopper { new.now.rules.hopper ≡ old.now.rules.hopper }
    ensures none { result ≡ None → PriceAlike new.now old.now day }
    ensures differs { IfSome result (DayDiffers new.now old.now day) }
{
    if let Some(zones) = minutes_difference(new, old) {
        return Some(Key::Minutes(zones));
    }
    if let Some(key) = rules_difference(new.rules(), old.rules()) {
        return Some(key);
    }
    if let Some(span) = single_difference(new, old) {
        return Some(Key::Single(span));
    }
    if !same_bands(new.bands(), old.bands()) {
        return Some(Key::Band);
    }
    if new.is_holiday(day) != old.is_holiday(day) {
        return Some(Key::Holidays);
    }
    None
}

/// Whether bands are the same ones in the same order.
fn same_bands(new: &[Band], old: &[Band]) -> bool
    ensures { IsTrue result ↔ (new.now ≡ old.now) }
{
    new.len() == old.len() && are_same(new, old)
}

/// Whether each of some bands is the one that stands beside it.
fn are_same(new: &[Band], old: &[Band]) -> bool
    ensures { result ≡ list_all (λ pair. same_band pair.0 pair.1) (zip new.now old.now) }
{
    new.iter()
        .zip(old)
        .all(|(band, other)| same_band(band, other))
}

fn same_band(band: &Band, other: &Band) -> bool
    ensures { result ≡ same_band band.now other.now }
{
    band.cover.same_as(other.cover) && band.day == other.day && band.week == other.week
}

/// A number of zones for which legs have another allowed time.
fn minutes_difference(new: &Tables, old: &Tables) -> Option<u8>
    requires { old.now.zones ≤ new.now.zones }
    ensures none { result ≡ None → (span : Span) → IsSpan old.now.zones span → allowed_seconds new.now span ≡ allowed_seconds old.now span }
    ensures differs { IfSome result (MinutesDiffer new.now old.now) }
{
    for to in 1..=old.zones() {
        let span = Span { from: 1, to };
        if new.max_seconds(span) != old.max_seconds(span) {
            return Some(to);
        }
    }
    None
}

/// A key by which rules of the same Hopper time differ.
fn rules_difference(new: Rules, old: Rules) -> Option<Key>
    requires { new.hopper ≡ old.hopper }
    ensures none { result ≡ None → new ≡ old }
    ensures differs { IfSome result (RulesDiffer new old) }
{
    if new.bus != old.bus {
        return Some(Key::Bus);
    }
    if new.maximum != old.maximum {
        return Some(Key::Maximum);
    }
    if new.same_free != old.same_free {
        return Some(Key::SameFree);
    }
    if new.same_limit != old.same_limit {
        return Some(Key::SameLimit);
    }
    None
}

/// A span within the old zones whose single fares differ.
fn single_difference(new: &Tables, old: &Tables) -> Option<Span>
    requires { old.now.zones ≤ new.now.zones }
    ensures none { result ≡ None → (span : Span) (peak : Bool) → IsSpan old.now.zones span → single_fare new.now span peak ≡ single_fare old.now span peak }
    ensures differs { IfSome result (SinglesDiffer new.now old.now) }
{
    for from in 1..=old.zones() {
        if let Some(span) = single_difference_from(new, old, from) {
            return Some(span);
        }
    }
    None
}

/// The same, of the spans from a zone on.
fn single_difference_from(new: &Tables, old: &Tables, from: u8) -> Option<Span>
    requires zones { old.now.zones ≤ new.now.zones }
    requires first { 1 ≤ from }
    ensures none { result ≡ None → SinglesAlikeFrom new.now old.now from }
    ensures differs { IfSome result (SinglesDiffer new.now old.now) }
{
    for to in from..=old.zones() {
        let span = Span { from, to };
        if single_differs(new, old, span) {
            return Some(span);
        }
    }
    None
}

fn single_differs(new: &Tables, old: &Tables, span: Span) -> bool
    requires zones { old.now.zones ≤ new.now.zones }
    requires span { IsSpan old.now.zones span }
    ensures { IsTrue result ↔ SinglesDiffer new.now old.now span }
{
    new.single(span, true) != old.single(span, true)
        || new.single(span, false) != old.single(span, false)
}
