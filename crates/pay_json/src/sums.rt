//! What a day and a week come to.
use pay_tables::Cover;
use pay_why::{CapReason, CappedBand};
use std::fmt;

/// What a band covers: `{"kind":"Zones","from":1,"to":2}`, or `{"kind":"Buses"}`.
#[derive(Clone, Copy)]
struct Covers(Cover);

/// The band that gives a price, or `null` if none does.
#[derive(Clone, Copy)]
struct Band(Option<CappedBand>);

/// The sums of a day, or of a week.
#[derive(Clone, Copy)]
pub struct Sums(pub CapReason);

impl fmt::Display for Covers {
    ghost use Rattle.std.specs.Prelude.{Some};
    ghost use Rattle.serde_json.specs.Written.{compact_text};
    ghost use Rattle.pay_json.specs.Sums.{cover_value};

    ghost output = { λ it. Some (compact_text (cover_value it.0)) };

    #[tactic(auto, unfolding(crate::specs::Sums::cover_value, json::specs::Print::escape_byte))]
    fn fmt<W: fmt::Write>(&self, f: &mut fmt::Formatter<W>) -> fmt::Result {
        match self.0 {
            Cover::Buses => f.write_str("{\"kind\":\"Buses\"}"),
            Cover::Zones(span) => {
                let (from, to) = (span.from, span.to);
                write!(f, "{{\"kind\":\"Zones\",\"from\":{from},\"to\":{to}}}")
            }
        }
    }
}

impl fmt::Display for Band {
    ghost use Rattle.std.specs.Prelude.{Some};
    ghost use Rattle.serde_json.specs.Written.{compact_text};
    ghost use Rattle.pay_json.specs.Sums.{band_value};

    ghost output = { λ it. Some (compact_text (band_value it.0)) };

    #[tactic(auto, unfolding(crate::specs::Sums::band_value, json::specs::Print::escape_byte))]
    fn fmt<W: fmt::Write>(&self, f: &mut fmt::Formatter<W>) -> fmt::Result {
        let Some(band) = self.0 else {
            return f.write_str("null");
        };
        let cover = Covers(band.cover);
        let cap = band.cap.pence();
        let inside = band.inside.pence();
        let outside = band.outside.pence();
        write!(
            f,
            "{{\"cover\":{cover},\"cap_pence\":{cap},\"inside_pence\":{inside},\"outside_pence\":{outside}}}"
        )
    }
}

impl fmt::Display for Sums {
    ghost use Rattle.std.specs.Prelude.{Some};
    ghost use Rattle.serde_json.specs.Written.{compact_text};
    ghost use Rattle.pay_json.specs.Sums.{sums_value};

    ghost output = { λ it. Some (compact_text (sums_value it.0)) };

    #[tactic(auto, unfolding(crate::specs::Sums::sums_value, json::specs::Print::escape_byte))]
    fn fmt<W: fmt::Write>(&self, f: &mut fmt::Formatter<W>) -> fmt::Result {
        let reason = self.0;
        let uncapped = reason.uncapped.pence();
        let band = Band(reason.band);
        let maximum = reason.maximum.pence();
        let price = reason.price.pence();
        write!(
            f,
            "{{\"uncapped_pence\":{uncapped},\"band\":{band},\"maximum_fares_pence\":{maximum},\"price_pence\":{price}}}"
        )
    }
}
