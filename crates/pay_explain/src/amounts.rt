//! Amounts and times as they are printed.
ghost use Rattle.std.specs.Prelude.{◌≡◌};
ghost use Rattle.pay_explain.specs.Amounts.{indent};

use pay_day::Moment;
use pay_money::Pence;
use std::fmt;

/// A number below 100, with two digits.
#[derive(Clone, Copy)]
struct TwoDigits(u32);

impl fmt::Display for TwoDigits {
    ghost use Rattle.std.specs.Prelude.{Some};
    ghost use Rattle.pay_explain.specs.Amounts.{two_digits};

    ghost output = { λ number. Some (two_digits number.0) };

    fn fmt<W: fmt::Write>(&self, f: &mut fmt::Formatter<W>) -> fmt::Result {
        let tens = self.0 / 10;
        let ones = self.0 % 10;
        write!(f, "{tens}{ones}")
    }
}

/// An amount, printed in pounds and pence: `3.40`.
#[derive(Clone, Copy)]
pub struct Pounds(pub Pence);

impl fmt::Display for Pounds {
    ghost use Rattle.std.specs.Prelude.{Some};
    ghost use Rattle.pay_explain.specs.Amounts.{pounds_text};

    ghost output = { λ amount. Some (pounds_text amount.0) };

    fn fmt<W: fmt::Write>(&self, f: &mut fmt::Formatter<W>) -> fmt::Result {
        let amount = self.0;
        let pounds = amount.pence() / 100;
        let pence = TwoDigits((amount.pence() % 100) as u32);
        write!(f, "{pounds}.{pence}")
    }
}

/// What the clocks show at a moment, printed as `08:40:00`.
#[derive(Clone, Copy)]
pub struct Clock(pub Moment);

impl fmt::Display for Clock {
    ghost use Rattle.std.specs.Prelude.{Some};
    ghost use Rattle.pay_explain.specs.Amounts.{clock_text};

    ghost output = { λ clock. Some (clock_text clock.0.second) };

    fn fmt<W: fmt::Write>(&self, f: &mut fmt::Formatter<W>) -> fmt::Result {
        let second = self.0.second();
        let hours = TwoDigits(second / 3600);
        let minutes = TwoDigits(second / 60 % 60);
        let seconds = TwoDigits(second % 60);
        write!(f, "{hours}:{minutes}:{seconds}")
    }
}

/// An amount at the head of a line, with its point in one column: `   3.40  `, and `1050.00  `.
#[derive(Clone, Copy)]
pub struct Head(pub Pence);

impl fmt::Display for Head {
    ghost use Rattle.std.specs.Prelude.{Some};
    ghost use Rattle.pay_explain.specs.Amounts.{head_text};

    ghost output = { λ amount. Some (head_text amount.0) };

    fn fmt<W: fmt::Write>(&self, f: &mut fmt::Formatter<W>) -> fmt::Result {
        let amount = Pounds(self.0);
        let indent = indent(self.0);
        write!(f, "{indent}{amount}  ")
    }
}

/// What stands before an amount so that all points are in one column, up to 9,999.99.
fn indent(amount: Pence) -> &'static str
    ensures { result.now ≡ indent amount }
{
    match amount.pence() {
        0..1_000 => "   ",
        1_000..10_000 => "  ",
        10_000..100_000 => " ",
        _ => "",
    }
}
