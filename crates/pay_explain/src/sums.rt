//! What a day comes to, as lines.
use crate::amounts::{Head, Pounds};
use crate::sentences::Zones;
use pay_tables::Cover;
use pay_why::{CapReason, CappedBand};
use std::fmt;

/// What a band covers: `zones 1 to 2`, or `buses`.
#[derive(Clone, Copy)]
pub struct Covered(pub Cover);

/// The lines of the band that gives a price, if one does.
#[derive(Clone, Copy)]
pub struct BandLines(pub Option<CappedBand>);

/// The lines of the sums of a day: what its journeys come to, the cap that won, the maximum fares, and the
/// price.
#[derive(Clone, Copy)]
pub struct DaySums(pub CapReason);

impl fmt::Display for Covered {
    ghost use Rattle.std.specs.Prelude.{Some};
    ghost use Rattle.pay_explain.specs.Sums.{cover_text};

    ghost output = { λ covered. Some (cover_text covered.0) };

    fn fmt<W: fmt::Write>(&self, f: &mut fmt::Formatter<W>) -> fmt::Result {
        match self.0 {
            Cover::Buses => f.write_str("buses"),
            Cover::Zones(span) => {
                let zones = Zones(span);
                write!(f, "{zones}")
            }
        }
    }
}

impl fmt::Display for BandLines {
    ghost use Rattle.std.specs.Prelude.{Some};
    ghost use Rattle.pay_explain.specs.Sums.{band_text};

    ghost output = { λ lines. Some (band_text lines.0) };

    fn fmt<W: fmt::Write>(&self, f: &mut fmt::Formatter<W>) -> fmt::Result {
        match self.0 {
            None => Ok(()),
            Some(band) => {
                let cap = Head(band.cap);
                let cover = Covered(band.cover);
                let inside = Pounds(band.inside);
                let outside = Head(band.outside);
                write!(
                    f,
                    "{cap}by the cap of {cover}, in place of {inside}\n{outside}outside of it\n"
                )
            }
        }
    }
}

impl fmt::Display for DaySums {
    ghost use Rattle.std.specs.Prelude.{Some};
    ghost use Rattle.pay_explain.specs.Sums.{day_sums_text};

    ghost output = { λ sums. Some (day_sums_text sums.0) };

    fn fmt<W: fmt::Write>(&self, f: &mut fmt::Formatter<W>) -> fmt::Result {
        let reason = self.0;
        let uncapped = Head(reason.uncapped);
        let band = BandLines(reason.band);
        let maximum = Head(reason.maximum);
        let price = Head(reason.price);
        write!(
            f,
            "{uncapped}all but maximum fares, without a cap\n{band}{maximum}maximum fares\n{price}the day\n"
        )
    }
}
