//! What a week comes to through a day, and what is due of it, as lines.
use crate::amounts::Head;
use crate::sums::BandLines;
use pay_dates::DatedDay;
use pay_money::Pence;
use pay_rules::{Fix, What};
use pay_why::{CapReason, DueReason};
use std::fmt;

/// The lines of the sums of a week through a day.
#[derive(Clone, Copy)]
pub struct WeekSums(pub CapReason);

/// The lines of what is due of a week's price: the Credits, taken off, and the rest.
#[derive(Clone, Copy)]
pub struct DueLines(pub DueReason);

/// The line of a day of the week: what it costs without its maximum fares.
#[derive(Clone, Copy)]
pub struct DayLine {
    /// The service day.
    pub day: DatedDay,
    /// What it costs, but for its maximum fares.
    pub price: Pence,
}

/// The line of a Credit, or none of any other correction.
#[derive(Clone, Copy)]
pub struct CreditLine(pub Fix);

impl fmt::Display for DayLine {
    ghost use Rattle.std.specs.Prelude.{Some};
    ghost use Rattle.pay_explain.specs.Week.{day_line_text};

    ghost output = { λ line. Some (day_line_text line.day.day line.price) };

    fn fmt<W: fmt::Write>(&self, f: &mut fmt::Formatter<W>) -> fmt::Result {
        let price = Head(self.price);
        let day = self.day;
        write!(f, "{price}{day}\n")
    }
}

impl fmt::Display for WeekSums {
    ghost use Rattle.std.specs.Prelude.{Some};
    ghost use Rattle.pay_explain.specs.Week.{week_sums_text};

    ghost output = { λ sums. Some (week_sums_text sums.0) };

    fn fmt<W: fmt::Write>(&self, f: &mut fmt::Formatter<W>) -> fmt::Result {
        let reason = self.0;
        let uncapped = Head(reason.uncapped);
        let band = BandLines(reason.band);
        let maximum = Head(reason.maximum);
        let price = Head(reason.price);
        write!(
            f,
            "{uncapped}these days, without a week cap\n{band}{maximum}maximum fares of these days\n{price}the week\n"
        )
    }
}

impl fmt::Display for DueLines {
    ghost use Rattle.std.specs.Prelude.{Some};
    ghost use Rattle.pay_explain.specs.Week.{due_text};

    ghost output = { λ lines. Some (due_text lines.0) };

    fn fmt<W: fmt::Write>(&self, f: &mut fmt::Formatter<W>) -> fmt::Result {
        let credits = Head(self.0.credits);
        let due = Head(self.0.due);
        write!(f, "{credits}Credits, taken off\n{due}due\n")
    }
}

impl fmt::Display for CreditLine {
    ghost use Rattle.std.specs.Prelude.{Some};
    ghost use Rattle.pay_explain.specs.Week.{credit_text};

    ghost output = { λ line. Some (credit_text line.0) };

    fn fmt<W: fmt::Write>(&self, f: &mut fmt::Formatter<W>) -> fmt::Result {
        let staff = self.0.staff;
        let seq = self.0.seq;
        match self.0.what {
            What::Credit(credit) => {
                let pence = Head(credit.pence());
                let day = DatedDay::of(credit.day());
                write!(f, "{pence}Credit {staff} {seq} of {day}\n")
            }
            _ => Ok(()),
        }
    }
}
