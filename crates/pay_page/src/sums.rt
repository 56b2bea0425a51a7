//! What a day and a week come to, as rows of a table.
ghost use Rattle.std.specs.Prelude.{◌≡◌, ◌++◌, OnOk};
ghost use Rattle.std.specs.List.{flat_map};
ghost use Rattle.std.specs.String.{string_bytes};
ghost use Rattle.pay_page.specs.Sums.{credit_row, table_end};

use pay_explain::{Covered, Pounds};
use pay_money::Pence;
use pay_rules::{Fix, What};
use pay_why::{CapReason, CappedBand, DueReason};
use std::alloc::AllocError;
use std::fmt;

/// The head of a table of sums, with what they are of.
#[derive(Clone, Copy)]
pub struct SumsStart<'a> {
    /// What the sums are of, as HTML.
    pub caption: &'a str,
}

/// A row of a sum.
#[derive(Clone, Copy)]
pub struct SumRow<'a> {
    /// What it is, as HTML.
    pub label: &'a str,
    /// The sum.
    pub amount: Pence,
}

/// The rows of the band that gives a price, if one does.
#[derive(Clone, Copy)]
pub struct BandRows(pub Option<CappedBand>);

/// The rows of the sums of a day: what its journeys come to, the cap that won, the maximum fares, and the price.
#[derive(Clone, Copy)]
pub struct DaySumRows(pub CapReason);

/// The rows of the sums of a week through a day.
#[derive(Clone, Copy)]
pub struct WeekSumRows(pub CapReason);

/// The row of a Credit, or none of any other correction.
#[derive(Clone, Copy)]
pub struct CreditRow(pub Fix);

/// The rows of what is due of a week's price: the Credits, taken off, and the rest.
#[derive(Clone, Copy)]
pub struct DueRows(pub DueReason);

impl<'a> fmt::Display for SumsStart<'a> {
    ghost use Rattle.std.specs.Prelude.{Some};
    ghost use Rattle.pay_page.specs.Sums.{sums_start};

    ghost output = { λ it. Some (sums_start it.caption.now) };

    #[tactic(auto, unfolding(crate::specs::Sums::sums_start))]
    fn fmt<W: fmt::Write>(&self, f: &mut fmt::Formatter<W>) -> fmt::Result {
        let caption = self.caption;
        write!(
            f,
            "<table>\n<caption>{caption}</caption>\n<thead>\n\
<tr><th scope=\"col\">What</th><th scope=\"col\">Amount</th></tr>\n</thead>\n<tbody>\n"
        )
    }
}

impl<'a> fmt::Display for SumRow<'a> {
    ghost use Rattle.std.specs.Prelude.{Some};
    ghost use Rattle.pay_page.specs.Sums.{sum_row};

    ghost output = { λ it. Some (sum_row it.label.now it.amount) };

    #[tactic(auto, unfolding(crate::specs::Sums::sum_row))]
    fn fmt<W: fmt::Write>(&self, f: &mut fmt::Formatter<W>) -> fmt::Result {
        let label = self.label;
        let amount = Pounds(self.amount);
        write!(
            f,
            "<tr><th scope=\"row\">{label}</th><td class=\"amount\">{amount}</td></tr>\n"
        )
    }
}

impl fmt::Display for BandRows {
    ghost use Rattle.std.specs.Prelude.{Some};
    ghost use Rattle.pay_page.specs.Sums.{band_rows};

    ghost output = { λ rows. Some (band_rows rows.0) };

    #[tactic(auto, unfolding(crate::specs::Sums::band_rows))]
    fn fmt<W: fmt::Write>(&self, f: &mut fmt::Formatter<W>) -> fmt::Result {
        let Some(band) = self.0 else {
            return Ok(());
        };
        let cover = Covered(band.cover);
        let inside = Pounds(band.inside);
        let cap = Pounds(band.cap);
        let outside = SumRow {
            label: "Outside of it",
            amount: band.outside,
        };
        write!(
            f,
            "<tr><th scope=\"row\">By the cap of {cover}, in place of {inside}</th>\
<td class=\"amount\">{cap}</td></tr>\n{outside}"
        )
    }
}

impl fmt::Display for DaySumRows {
    ghost use Rattle.std.specs.Prelude.{Some};
    ghost use Rattle.pay_page.specs.Sums.{day_sum_rows};

    ghost output = { λ rows. Some (day_sum_rows rows.0) };

    #[tactic(auto, unfolding(crate::specs::Sums::day_sum_rows))]
    fn fmt<W: fmt::Write>(&self, f: &mut fmt::Formatter<W>) -> fmt::Result {
        let reason = self.0;
        let uncapped = SumRow {
            label: "All but maximum fares, without a cap",
            amount: reason.uncapped,
        };
        let band = BandRows(reason.band);
        let maximum = SumRow {
            label: "Maximum fares",
            amount: reason.maximum,
        };
        let price = SumRow {
            label: "The day",
            amount: reason.price,
        };
        write!(f, "{uncapped}{band}{maximum}{price}")
    }
}

impl fmt::Display for WeekSumRows {
    ghost use Rattle.std.specs.Prelude.{Some};
    ghost use Rattle.pay_page.specs.Sums.{week_sum_rows};

    ghost output = { λ rows. Some (week_sum_rows rows.0) };

    #[tactic(auto, unfolding(crate::specs::Sums::week_sum_rows))]
    fn fmt<W: fmt::Write>(&self, f: &mut fmt::Formatter<W>) -> fmt::Result {
        let reason = self.0;
        let uncapped = SumRow {
            label: "These days, without a week cap",
            amount: reason.uncapped,
        };
        let band = BandRows(reason.band);
        let maximum = SumRow {
            label: "Maximum fares of these days",
            amount: reason.maximum,
        };
        let price = SumRow {
            label: "The week",
            amount: reason.price,
        };
        write!(f, "{uncapped}{band}{maximum}{price}")
    }
}

impl fmt::Display for CreditRow {
    ghost use Rattle.std.specs.Prelude.{Some};
    ghost use Rattle.pay_page.specs.Sums.{credit_row, table_end};

    ghost output = { λ row. Some (credit_row row.0) };

    fn fmt<W: fmt::Write>(&self, f: &mut fmt::Formatter<W>) -> fmt::Result {
        let (staff, seq) = (self.0.staff, self.0.seq);
        match self.0.what {
            What::Credit(credit) => {
                let day = credit.day();
                let pence = Pounds(credit.pence());
                write!(
                    f,
                    "<tr><th scope=\"row\">Credit {staff} {seq} of day {day}</th>\
<td class=\"amount\">{pence}</td></tr>\n"
                )
            }
            _ => Ok(()),
        }
    }
}

impl fmt::Display for DueRows {
    ghost use Rattle.std.specs.Prelude.{Some};
    ghost use Rattle.pay_page.specs.Sums.{due_rows};

    ghost output = { λ rows. Some (due_rows rows.0) };

    #[tactic(auto, unfolding(crate::specs::Sums::due_rows))]
    fn fmt<W: fmt::Write>(&self, f: &mut fmt::Formatter<W>) -> fmt::Result {
        let credits = SumRow {
            label: "Credits, taken off",
            amount: self.0.credits,
        };
        let due = SumRow {
            label: "Due",
            amount: self.0.due,
        };
        write!(f, "{credits}{due}")
    }
}

/// Adds the rows of Credits.
pub fn push_credits(text: &mut String, credits: &[Fix]) -> Result<(), AllocError>
    ensures { OnOk result (string_bytes text.new ≡ string_bytes text.old ++ flat_map credit_row credits.now) }
{
    for credit in credits {
        let row = CreditRow(*credit);
        write!(text, "{row}")?;
    }
    Ok(())
}

/// Adds the end of a table.
#[tactic(auto, unfolding(crate::specs::Sums::table_end))]
pub fn push_table_end(text: &mut String) -> Result<(), AllocError>
    ensures { OnOk result (string_bytes text.new ≡ string_bytes text.old ++ table_end) }
{
    text.push_str("</tbody>\n</table>\n")
}
