ghost use Rattle.std.specs.Prelude.{◌≡◌, ◌≤◌, IfOk, IfSome, option_map, ◌*◌, All, length};
ghost use Rattle.std.specs.FinMap as map;
ghost use Rattle.std.specs.List.{find};
ghost use Rattle.pay_tables.specs.declared.limits.TheConstants.{MOST_ZONES, MOST_MINUTES, MOST_FARE, MOST_INTERCHANGE_SECONDS, MOST_BANDS};
ghost use Rattle.pay_tables.specs.FareTables.{AreRules, IsInterchange, IsPlace, IsSingle, is_between, station_at, single_of_span, single_fare, allowed_seconds, is_holiday, interchange, counts, IsFareTables};
ghost use Rattle.pay_tables.specs.Bands.{IsBand};
ghost use Rattle.pay_tables.specs.Parts.{edition_of, tables_of};
ghost use Rattle.pay_tables.specs.Spans.{IsSpan};

use crate::band::Band;
use crate::counts::Counts;
use crate::interchange::Interchange;
use crate::network::Network;
use crate::parts::{EditionParts, FareParts};
use crate::place::Place;
use crate::rules::Rules;
use crate::single::Single;
use crate::zones::Span;
use pay_money::Pence;
use std::alloc::{AllocError, Global};
use std::marker::Model;
use std::sync::Arc;

/// What a fare file says of the days of one edition.
#[derive(Drop)]
pub struct Tables {
    // All editions of a file share one.
    network: Arc<Network>,
    minutes: Vec<u32>,
    rules: Rules,
    singles: Vec<Single>,
    bands: Vec<Band>,
}

impl Model for Tables {
    ghost use Rattle.std.specs.Arc.{arc_value};
    ghost use Rattle.pay_tables.specs.FareTables.{FareTables, IsFareTables};
    ghost use Rattle.pay_tables.specs.Codes.{fare_tables_code};
    ghost use Rattle.pay_tables.specs.Parts.{tables_from};

    ghost Value = { FareTables };

    ghost coded = { fare_tables_code };

    ghost view = { λ t. tables_from (arc_value t.network) (t.minutes.items, t.rules, t.singles.items, t.bands.items) };

    ghost invariant = { λ t. IsFareTables (tables_from (arc_value t.network) (t.minutes.items, t.rules, t.singles.items, t.bands.items)) };
}

impl Tables {
    /// The tables that parts make, which are those of a file's own keys. An `Err` is out of memory.
    pub fn new(alloc: Global, parts: FareParts) -> Result<Tables, AllocError>
        requires { IsFareTables (tables_of parts) }
        ensures { IfOk result (λ tables. tables ≡ tables_of parts) }
    {
        let mut places = parts.places;
        places.lay_out(alloc);
        let network = Network {
            zones: parts.zones,
            holidays: parts.holidays,
            places,
            interchanges: parts.interchanges,
        };
        Ok(Tables {
            network: Arc::new(alloc, network)?,
            minutes: parts.minutes,
            rules: parts.rules,
            singles: parts.singles,
            bands: parts.bands,
        })
    }

    /// The tables of an edition of the same file, which say other things of legs, prices and caps, and share the
    /// rest. An `Err` is out of memory.
    pub fn edition(&self, parts: EditionParts) -> Result<Tables, AllocError>
        requires { IsFareTables (edition_of self.now parts) }
        ensures { IfOk result (λ tables. tables ≡ edition_of self.now parts) }
    {
        Ok(Tables {
            network: Arc::clone(&self.network)?,
            minutes: parts.minutes,
            rules: parts.rules,
            singles: parts.singles,
            bands: parts.bands,
        })
    }

    /// How many fare zones there are.
    pub fn zones(&self) -> u8
        ensures value { result ≡ self.now.zones }
        ensures in_range { (1 ≤ result) × (result ≤ MOST_ZONES) }
    {
        self.network.zones
    }

    /// The prices and the times that hold for every journey.
    pub fn rules(&self) -> Rules
        ensures value { result ≡ self.now.rules }
        ensures in_range { AreRules result }
    {
        self.rules
    }

    /// What stands at a place's number, if anything does.
    pub fn place(&self, number: u16) -> Option<Place>
        ensures value { result ≡ map.get self.now.places number }
        ensures in_range { IfSome result (IsPlace self.now.zones) }
    {
        self.network.places.get(number)
    }

    /// The station at a place's number. A number without a place, which no accepted tap has, counts as
    /// a station in zone 1.
    pub fn station(&self, number: u16) -> Place
        ensures value { result ≡ station_at self.now number }
        ensures in_range { IsPlace self.now.zones result }
    {
        let _ = &self.rules;
        match self.place(number) {
            Some(place) => place,
            None => Place::Station {
                low: 1,
                high: 1,
                operator: 1,
            },
        }
    }

    /// The single fare of a span, for a journey that is peak or for one that is not.
    pub fn single(&self, span: Span, peak: bool) -> Pence
        requires { IsSpan self.now.zones span }
        ensures value { result ≡ single_fare self.now span peak }
        ensures in_range { result ≤ MOST_FARE }
    {
        let _ = &self.rules;
        match self.single_of_span(span) {
            Some(single) if peak => single.peak,
            Some(single) => single.off,
            None => unreachable!(),
        }
    }

    #[tactic(auto, using(crate::proofs::FoundItems::found_is))]
    fn single_of_span(&self, span: Span) -> Option<&Single>
        ensures value { option_map (λ single. single.now) result ≡ single_of_span self.now span }
        ensures in_range { IfSome result (λ single. IsSingle self.now.zones single.now) }
    {
        self.singles.iter().find(|single| single.span == span)
    }

    /// How many seconds a leg within a span may last.
    pub fn max_seconds(&self, span: Span) -> u32
        requires { IsSpan self.now.zones span }
        ensures value { result ≡ allowed_seconds self.now span }
        ensures in_range { (60 ≤ result) × (result ≤ 60 * MOST_MINUTES) }
    {
        60 * self.minutes[usize::from(span.to - span.from)]
    }

    /// The caps, by what they cover. No two cover the same.
    pub fn bands(&self) -> &[Band]
        ensures value { result.now ≡ self.now.bands }
        ensures in_range { All (IsBand self.now.zones) result.now }
        ensures few { length result.now ≤ MOST_BANDS }
    {
        &self.bands
    }

    /// How much of each kind there is.
    pub fn counts(&self) -> Counts
        ensures { result ≡ counts self.now }
    {
        Counts {
            places: self.network.places.len(),
            bands: self.bands.len(),
            interchanges: self.network.interchanges.len(),
            holidays: self.network.holidays.len(),
        }
    }

    /// Does nothing: what it tells is true of the tables of every fare file.
    pub(crate) fn in_range(&self)
        ensures { IsFareTables self.now }
    {
        let _ = &self.rules;
    }

    /// Whether a service day is a public holiday.
    pub fn is_holiday(&self, day: u32) -> bool
        ensures { result ≡ is_holiday self.now day }
    {
        self.network.holidays.contains(&day)
    }

    /// How many seconds may pass between the exit at one station and the entry at another, in either
    /// order, if the file lists them.
    pub fn interchange(&self, a: u16, b: u16) -> Option<u32>
        ensures value { result ≡ interchange self.now a b }
        ensures either_order { result ≡ interchange self.now b a }
        ensures in_range { IfSome result (λ seconds. (1 ≤ seconds) × (seconds ≤ MOST_INTERCHANGE_SECONDS)) }
    {
        let pair = self.interchange_between(a, b)?;
        Some(pair.seconds)
    }

    /// All interchanges, in the order of the file.
    pub fn interchanges(&self) -> &[Interchange]
        ensures { result.now ≡ self.now.interchanges }
    {
        &self.network.interchanges
    }

    #[tactic(auto, using(crate::proofs::FoundItems::found_is))]
    fn interchange_between(&self, a: u16, b: u16) -> Option<&Interchange>
        ensures value { option_map (λ pair. pair.now) result ≡ find (is_between a b) self.now.interchanges }
        ensures in_range { IfSome result (λ pair. IsInterchange pair.now) }
    {
        self.network
            .interchanges
            .iter()
            .find(|pair| pair.is_between(a, b))
    }
}
