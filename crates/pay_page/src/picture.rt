//! The picture of a day: its journeys on a line from 04:30 to 04:30.
ghost use Rattle.std.specs.Prelude.{◌≡◌, ◌++◌, OnOk};
ghost use Rattle.std.specs.String.{string_bytes};
ghost use Rattle.pay_page.specs.Picture.{hour_marks, picture};

use crate::marks::{LEFT, push_marks};
use pay_explain::DayFacts;
use pay_html::Escaped;
use std::alloc::AllocError;
use std::fmt;

/// The start of the picture, with its title, a text, and what its marks mean.
#[derive(Clone, Copy)]
struct PictureStart<'a>(&'a str);

/// A full hour, with where it stands.
#[derive(Clone, Copy)]
struct HourMark {
    x: u32,
    hour: u32,
}

impl<'a> fmt::Display for PictureStart<'a> {
    ghost use Rattle.std.specs.Prelude.{Some};
    ghost use Rattle.pay_page.specs.Picture.{picture_start};

    ghost output = { λ it. Some (picture_start it.0.now) };

    #[tactic(auto, unfolding(crate::specs::Picture::picture_start))]
    fn fmt<W: fmt::Write>(&self, f: &mut fmt::Formatter<W>) -> fmt::Result {
        let title = Escaped(self.0);
        write!(
            f,
            "<svg viewBox=\"0 0 1040 150\" role=\"img\" aria-labelledby=\"picture-title picture-desc\">\n\
<title id=\"picture-title\">{title}</title>\n\
<desc id=\"picture-desc\">The day from 04:30 to 04:30. Squares are boardings, and bars are legs by rail, \
which a line joins to a journey. Diamonds are taps that stand alone. What costs nothing is hollow. \
The numbers are those of the table.</desc>\n\
<text x=\"10\" y=\"56\">Bus</text>\n<text x=\"10\" y=\"106\">Rail</text>\n"
        )
    }
}

impl fmt::Display for HourMark {
    ghost use Rattle.std.specs.Prelude.{Some};
    ghost use Rattle.pay_page.specs.Picture.{hour_at};

    ghost output = { λ it. Some (hour_at it.x it.hour) };

    #[tactic(auto, unfolding(crate::specs::Picture::hour_at))]
    fn fmt<W: fmt::Write>(&self, f: &mut fmt::Formatter<W>) -> fmt::Result {
        let (x, hour) = (self.x, self.hour);
        write!(
            f,
            "<line class=\"hour\" x1=\"{x}\" y1=\"10\" x2=\"{x}\" y2=\"120\"/>\n\
<text class=\"hour\" x=\"{x}\" y=\"138\">{hour}:00</text>\n"
        )
    }
}

/// Adds the full hours, from 5:00 to 4:00.
fn push_hours(text: &mut String) -> Result<(), AllocError>
    ensures { OnOk result (string_bytes text.new ≡ string_bytes text.old ++ hour_marks) }
{
    for hours in 0..24 {
        // The line begins half an hour before 05:00, and an hour has 40 units.
        let mark = HourMark {
            x: LEFT + 20 + 40 * hours,
            hour: (hours + 5) % 24,
        };
        write!(text, "{mark}")?;
    }
    Ok(())
}

/// Adds the picture of a day.
pub fn push_picture(text: &mut String, title: &str, facts: &DayFacts) -> Result<(), AllocError>
    ensures { OnOk result (string_bytes text.new ≡ string_bytes text.old ++ picture title.now facts.now.journeys.items facts.now.list.items) }
{
    let start = PictureStart(title);
    write!(text, "{start}")?;
    push_hours(text)?;
    push_marks(text, facts)?;
    text.push_str("</svg>\n")?;
    Ok(())
}
