//! Forms that ask for a credit, and for a tap that is missing.
use crate::back_forms::AccountFields;
use std::fmt;

/// The form that asks how much a credit is.
#[derive(Clone, Copy)]
pub struct CreditForm(pub AccountFields);

/// The form that asks for a tap's time, place and kind.
#[derive(Clone, Copy)]
pub struct TapForm(pub AccountFields);

impl fmt::Display for CreditForm {
    ghost use Rattle.std.specs.Prelude.{Some};
    ghost use Rattle.pay_fix_page.specs.AskingForms.{credit_form};

    ghost output = { λ it. Some (credit_form it.0.account it.0.day) };

    #[tactic(auto, unfolding(crate::specs::AskingForms::credit_form))]
    fn fmt<W: fmt::Write>(&self, f: &mut fmt::Formatter<W>) -> fmt::Result {
        let fields = self.0;
        write!(
            f,
            "<h2>Give a credit</h2>\n<form action=\"/preview-credit\" method=\"post\">\n{fields}\
<p><label for=\"pence\">Pence</label>\n\
<input id=\"pence\" name=\"pence\" type=\"number\" min=\"1\" max=\"100000\" required></p>\n\
<p><button type=\"submit\">Preview</button></p>\n</form>\n"
        )
    }
}

impl fmt::Display for TapForm {
    ghost use Rattle.std.specs.Prelude.{Some};
    ghost use Rattle.pay_fix_page.specs.AskingForms.{tap_form};

    ghost output = { λ it. Some (tap_form it.0.account it.0.day) };

    #[tactic(auto, unfolding(crate::specs::AskingForms::tap_form))]
    fn fmt<W: fmt::Write>(&self, f: &mut fmt::Formatter<W>) -> fmt::Result {
        let fields = self.0;
        write!(
            f,
            "<h2>Add a tap that is missing</h2>\n<form action=\"/preview-tap\" method=\"post\">\n{fields}\
<p><label for=\"time\">Time</label>\n\
<input id=\"time\" name=\"time\" type=\"time\" step=\"1\" required></p>\n\
<p><label for=\"place\">Place number</label>\n\
<input id=\"place\" name=\"place\" type=\"number\" min=\"1\" max=\"65535\" required></p>\n\
<p><label for=\"kind\">Kind</label>\n<select id=\"kind\" name=\"kind\">\n\
<option value=\"IN\">In at a station</option>\n<option value=\"OUT\">Out of a station</option>\n\
<option value=\"BUS\">On a bus</option>\n</select></p>\n\
<p><button type=\"submit\">Preview</button></p>\n</form>\n"
        )
    }
}
